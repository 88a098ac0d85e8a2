//! What is known of an application before its tags are.
ghost use Rattle.std.specs.Prelude.{◌≡◌, ◌<◌, ◌≤◌, ◌^◌, ◌++◌, ◌+◌, ◌∷◌, [], IfOk, length, Some, slice_get, slice_index, true};
ghost use Rattle.app_model.specs.CallGraph.{callees_at, outside_at};
ghost use Rattle.app_model.specs.Components.{BelongsTo, entries_of};
ghost use Rattle.app_model.specs.Sites.{sites_below};
ghost use Rattle.app_model.specs.TagTable.{cells_of};
ghost use Rattle.app_model.specs.Targets.{IsCallGraph};
ghost use Rattle.app_model.specs.Words.{code_len, handler_at, successor_at};
ghost use Rattle.act_model.specs.Acts.{act_at};
ghost use Rattle.tag_flow.specs.Known.{IsKnown, chosen, is_reached, row_width};
ghost use Rattle.tag_flow.specs.State.{IsSpot};
ghost use Rattle.tag_flow.specs.Turns.{IsSite, IsUnion};
ghost use Rattle.tag_rows.specs.Changes.{makes_lock};

use act_model::{Act, act_of};
use app_model::{App, CallGraph, ComponentTable, MethodRow};
use call_reach::{assigns, reach};
use ns_base::{MethodNo, OutOfMemory};
use std::alloc::{AllocError, Global};
use std::marker::Model;
use tag_rows::{Site, find_sites, makes_lock, site_of};

/// An instruction of a method that is reached; `width` is the number of cells of its row, and `start` the place of the
/// first of them among the method's cells.
#[derive(Clone, Copy)]
pub(crate) struct Spot {
    pub method: MethodNo,
    pub index: u32,
    pub width: usize,
    pub start: usize,
}

/// An application, a mark for each method that is reached, a mask for each method of the lock fields to which its reach
/// stores, and the calls that make a lock.
#[derive(Drop)]
pub(crate) struct Known<'a> {
    pub app: &'a App,
    pub graph: &'a CallGraph,
    list: &'a ComponentTable,
    entries: Vec<MethodNo>,
    reached: Vec<bool>,
    masks: Vec<u64>,
    sites: Vec<Site>,
}

impl<'a> Model for Known<'a> {
    ghost use Rattle.tag_flow.specs.Known.{KnownParts, IsKnown};

    ghost Value = { KnownParts };

    ghost view = { λ k. record { app = k.app.now; graph = k.graph.now; list = k.list.now; entries = k.entries.items; reached = k.reached.items; masks = k.masks.items; sites = k.sites.items } };

    ghost invariant = { λ k. IsKnown (record { app = k.app.now; graph = k.graph.now; list = k.list.now; entries = k.entries.items; reached = k.reached.items; masks = k.masks.items; sites = k.sites.items }) };
}

fn add_entry(entry: Option<MethodNo>, entries: &mut Vec<MethodNo>) -> Result<(), AllocError>
    ensures { IfOk result (λ done. entries.new.items ≡ entries.old.items ++ chosen (entry ∷ [])) }
{
    if let Some(method) = entry {
        entries.push(method)?;
    }
    Ok(())
}

// The methods of a component's callbacks.
fn add_entries(methods: &[Option<MethodNo>], entries: &mut Vec<MethodNo>) -> Result<(), AllocError>
    ensures { IfOk result (λ done. entries.new.items ≡ entries.old.items ++ chosen methods.now) }
{
    for i in 0..methods.len() {
        add_entry(methods[i], entries)?;
    }
    Ok(())
}

// The methods of all callbacks.
fn find_entries(alloc: Global, list: &ComponentTable) -> Result<Vec<MethodNo>, AllocError>
    ensures { IfOk result (λ entries. entries.items ≡ entries_of list.now) }
{
    let mut entries = Vec::new(alloc);
    for component in 0..list.rows.len() {
        add_entries(&list.rows[component].methods, &mut entries)?;
    }
    Ok(entries)
}

impl<'a> Known<'a> {
    /// Finds what is known.
    pub fn find(
        alloc: Global,
        app: &'a App,
        graph: &'a CallGraph,
        list: &'a ComponentTable,
    ) -> Result<Known<'a>, OutOfMemory>
        requires graph { IsCallGraph app.now graph.now }
        requires list { BelongsTo app.now list.now }
        requires sites { sites_below app.now (length app.now.methods) ≤ 64 }
        ensures app { IfOk result (λ known. known.app ≡ app.now) }
        ensures graph { IfOk result (λ known. known.graph ≡ graph.now) }
        ensures list { IfOk result (λ known. known.list ≡ list.now) }
    {
        app.told();
        let Ok(entries) = find_entries(alloc, list) else {
            return Err(OutOfMemory);
        };
        let Ok(sites) = find_sites(alloc, app) else {
            return Err(OutOfMemory);
        };
        let reached = reach(alloc, app, graph, &entries)?;
        let masks = assigns(alloc, app, graph)?;
        Ok(Known {
            app,
            graph,
            list,
            entries,
            reached,
            masks,
            sites,
        })
    }

    /// What holds of all that is known.
    pub fn told(&self)
        ensures { IsKnown self.now }
    {
        let _ = &self.reached;
    }

    /// The methods of all callbacks.
    pub fn entries(&self) -> &[MethodNo]
        ensures { result.now ≡ entries_of self.now.list }
    {
        let _ = &self.reached;
        self.entries.as_slice()
    }

    pub fn is_reached(&self, method: MethodNo) -> bool
        ensures { result ≡ is_reached self.now method.0 }
    {
        match self.reached.get(method.0 as usize) {
            Some(reached) => *reached,
            None => false,
        }
    }

    pub fn method(&self, method: MethodNo) -> &MethodRow
        requires { method.0 < length self.now.app.methods }
        ensures is { slice_get self.now.app.methods method.0 ≡ Some result.now }
        ensures ins { result.now.ins ≤ result.now.registers }
        ensures width { row_width self.now.app method.0 ≡ result.now.registers + 1 }
        ensures proto { result.now.proto.0 < length self.now.app.protos }
    {
        self.told();
        self.app.method(method)
    }

    /// How many cells a row of a method has.
    pub fn width(&self, method: MethodNo) -> usize
        requires { method.0 < length self.now.app.methods }
        ensures width { result ≡ row_width self.now.app method.0 }
        ensures narrow { result ≤ 2 ^ 16 }
        ensures some { 0 < result }
    {
        self.method(method).registers as usize + 1
    }

    /// An instruction of a method that is reached.
    pub fn spot(&self, method: MethodNo, index: u32) -> Spot
        requires reached { is_reached self.now method.0 ≡ true }
        requires index { index < code_len self.now.app method.0 }
        ensures spot { IsSpot self.now result }
        ensures method { result.method ≡ method }
        ensures index { result.index ≡ index }
    {
        self.told();
        let width = self.width(method);
        Spot {
            method,
            index,
            width,
            start: index as usize * width,
        }
    }

    /// Another instruction of the same method.
    pub fn beside(&self, spot: Spot, index: u32) -> Spot
        requires spot { IsSpot self.now spot }
        requires index { index < code_len self.now.app spot.method.0 }
        ensures spot { IsSpot self.now result }
        ensures method { result.method ≡ spot.method }
        ensures index { result.index ≡ index }
    {
        let start = index as usize * spot.width;
        Spot {
            index,
            start,
            ..spot
        }
    }

    pub fn method_count(&self) -> u32
        ensures { result ≡ length self.now.app.methods }
    {
        self.app.method_count()
    }

    /// How many instructions a method has.
    pub fn code_len(&self, method: MethodNo) -> u32
        requires { method.0 < length self.now.app.methods }
        ensures { result ≡ code_len self.now.app method.0 }
    {
        self.app.code_len(method)
    }

    /// What an instruction does.
    pub fn act(&self, spot: Spot) -> Act
        requires { IsSpot self.now spot }
        ensures { act_at self.now.app spot.method.0 spot.index ≡ Some result }
    {
        self.told();
        act_of(self.app, spot.method, spot.index)
    }

    /// The methods that an instruction can call.
    pub fn callees(&self, spot: Spot) -> &[MethodNo]
        ensures { result.now ≡ callees_at self.now.graph spot.method.0 spot.index }
    {
        self.graph.callees(spot.method, spot.index)
    }

    /// Whether an instruction can call what is outside the application.
    pub fn outside(&self, spot: Spot) -> bool
        ensures { result ≡ outside_at self.now.graph spot.method.0 spot.index }
    {
        self.graph.outside(spot.method, spot.index)
    }

    /// Successor number `number` of an instruction, if there are so many.
    pub fn successor(&self, spot: Spot, number: u32) -> Option<u32>
        requires { IsSpot self.now spot }
        ensures { result ≡ successor_at self.now.app spot.method.0 spot.index number }
    {
        self.told();
        self.app.successor(spot.method, spot.index, number)
    }

    /// Handler number `number` of an instruction, if there are so many.
    pub fn handler(&self, spot: Spot, number: u32) -> Option<u32>
        requires { IsSpot self.now spot }
        ensures { result ≡ handler_at self.now.app spot.method.0 spot.index number }
    {
        self.told();
        self.app.handler(spot.method, spot.index, number)
    }

    /// How many cells the table has for a method.
    pub fn cells_of(&self, method: MethodNo) -> u64
        requires { method.0 < length self.now.app.methods }
        ensures cells { result ≡ cells_of self.now.app (is_reached self.now) method.0 }
        ensures fits { result ≤ 2 ^ 48 }
    {
        if self.is_reached(method) {
            self.app.code_len(method) as u64 * self.width(method) as u64
        } else {
            0
        }
    }

    /// The site of a call that makes a lock; 0 at every other act.
    pub fn site(&self, spot: Spot, act: &Act) -> u32
        requires spot { IsSpot self.now spot }
        requires act { act_at self.now.app spot.method.0 spot.index ≡ Some act.now }
        ensures { IsSite self.now spot.method.0 spot.index act.now result }
    {
        self.told();
        if !makes_lock(act) {
            return 0;
        }
        site_of(&self.sites, spot.method, spot.index)
    }

    /// The lock fields to which the reach of some callee of an instruction stores.
    pub fn gone(&self, spot: Spot, callees: &[MethodNo]) -> u64
        requires callees { callees.now ≡ callees_at self.now.graph spot.method.0 spot.index }
        requires some { 0 < length callees.now }
        ensures { IsUnion self.now spot.method.0 spot.index result }
    {
        let _ = &self.masks;
        let mut gone = 0;
        for i in 0..callees.len() {
            gone |= self.mask(callees[i]);
        }
        gone
    }

    fn mask(&self, method: MethodNo) -> u64
        ensures { result ≡ slice_index self.now.masks method.0 }
    {
        match self.masks.get(method.0 as usize) {
            Some(mask) => *mask,
            None => 0,
        }
    }
}
