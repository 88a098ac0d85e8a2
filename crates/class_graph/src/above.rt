//! A row for each class: what stands above it.
ghost use Rattle.std.specs.Prelude.{◌≡◌, ◌<◌, ◌+◌, ◌^◌, IfOk, [], length, map, slice_get, Some};
ghost use Rattle.std.specs.List.{All};
ghost use Rattle.ns_base.specs.declared.rows.TypeNo.{TypeNo};
ghost use Rattle.app_model.specs.Hierarchy.{is_superclass};
ghost use Rattle.app_model.specs.Parts.{ClassParts};
ghost use Rattle.class_graph.specs.Built.{above_of};
ghost use Rattle.class_graph.specs.Graph.{stands_in};
ghost use Rattle.class_graph.specs.Walks.{has_kind, met_all, met_above, met_next, met_from, beside, with_kinds};

use crate::kinds::{has_unknown, is_unknown_parent};
use crate::walk::Walk;
use app_model::App;
use ns_base::{ClassNo, TypeNo};
use std::alloc::{AllocError, Global};
use std::marker::Model;

/// The superclass of a class; its interfaces with all types above them; whether the files say nothing of
/// one of these.
#[derive(Drop)]
pub(crate) struct AboveRow {
    pub parent: Option<TypeNo>,
    pub kinds: Vec<TypeNo>,
    pub unknown: bool,
}

impl Model for AboveRow {
    ghost use Rattle.class_graph.specs.Graph.{AboveParts};

    ghost Value = { AboveParts };

    ghost view = { λ a. record { parent = a.parent; kinds = a.kinds.items; unknown = a.unknown } };
}

fn has_kind(kinds: &[TypeNo], kind: TypeNo) -> bool
    ensures { result ≡ has_kind kinds.now kind.0 }
{
    kinds.iter().any(|t| t.0 == kind.0)
}

impl AboveRow {
    fn is_parent(&self, kind: TypeNo) -> bool
        ensures { result ≡ is_superclass self.now.parent kind.0 }
    {
        match self.parent {
            Some(parent) => parent.0 == kind.0,
            None => false,
        }
    }

    /// Whether a type is the superclass, or stands above an interface or is one.
    pub fn stands(&self, kind: TypeNo) -> bool
        ensures { result ≡ stands_in (Some self.now) kind.0 }
    {
        self.is_parent(kind) || has_kind(&self.kinds, kind)
    }
}

fn meet_all(alloc: Global, walk: &mut Walk, kinds: &[TypeNo]) -> Result<(), AllocError>
    requires { All (λ (t : TypeNo). t.0 < walk.old.types) kinds.now }
    ensures { IfOk result (λ done. walk.new ≡ with_kinds walk.old (met_all walk.old.kinds kinds.now)) }
{
    for i in 0..kinds.len() {
        walk.meet(alloc, kinds[i])?;
    }
    Ok(())
}

// The superclass and the interfaces of a class.
fn meet_above(alloc: Global, app: &App, walk: &mut Walk, class: ClassNo) -> Result<(), AllocError>
    requires class { class.0 < length app.now.classes }
    requires types { walk.old.types ≡ length app.now.types }
    ensures { IfOk result (λ done. walk.new ≡ with_kinds walk.old (met_above walk.old.kinds (slice_get app.now.classes class.0))) }
{
    let row = app.class(class);
    if let Some(parent) = row.parent {
        walk.meet(alloc, parent)?;
    }
    meet_all(alloc, walk, &row.interfaces)
}

// What is right above the type at a place.
fn meet_next(alloc: Global, app: &App, walk: &mut Walk, place: usize) -> Result<(), AllocError>
    requires place { place < length walk.old.kinds }
    requires types { walk.old.types ≡ length app.now.types }
    ensures { IfOk result (λ done. walk.new ≡ with_kinds walk.old (met_next app.now.classes walk.old.kinds (slice_get walk.old.kinds place))) }
{
    let kind = walk.kinds()[place];
    match app.class_of_type(kind) {
        Some(class) => meet_above(alloc, app, walk, class),
        None => Ok(()),
    }
}

#[tactic(auto, using(crate::proofs::Lines::walk_step))]
fn meet_rest(alloc: Global, app: &App, walk: &mut Walk) -> Result<(), AllocError>
    requires { walk.old.types ≡ length app.now.types }
    ensures { IfOk result (λ done. walk.new ≡ with_kinds walk.old (met_from app.now.classes (length app.now.types) 0 walk.old.kinds)) }
{
    for place in 0..app.type_count() as usize {
        if place >= walk.kinds().len() {
            return Ok(());
        }
        meet_next(alloc, app, walk, place)?;
    }
    Ok(())
}

// The interfaces of a class, and all types above them.
fn walk_beside(alloc: Global, app: &App, walk: &mut Walk, class: ClassNo) -> Result<(), AllocError>
    requires class { class.0 < length app.now.classes }
    requires types { walk.old.types ≡ length app.now.types }
    requires turn { walk.old.turn + 1 < 2 ^ 64 }
    ensures kinds { IfOk result (λ done. (row : ClassParts) → slice_get app.now.classes class.0 ≡ Some row → walk.new.kinds ≡ beside app.now row) }
    ensures types { IfOk result (λ done. walk.new.types ≡ walk.old.types) }
    ensures turn { IfOk result (λ done. walk.new.turn ≡ walk.old.turn + 1) }
{
    walk.restart();
    meet_all(alloc, walk, &app.class(class).interfaces)?;
    meet_rest(alloc, app, walk)
}

fn above_row(
    alloc: Global,
    app: &App,
    walk: &mut Walk,
    class: ClassNo,
) -> Result<AboveRow, AllocError>
    requires class { class.0 < length app.now.classes }
    requires types { walk.old.types ≡ length app.now.types }
    requires turn { walk.old.turn + 1 < 2 ^ 64 }
    ensures row { IfOk result (λ above. (row : ClassParts) → slice_get app.now.classes class.0 ≡ Some row → above ≡ above_of app.now row) }
    ensures types { IfOk result (λ above. walk.new.types ≡ walk.old.types) }
    ensures turn { IfOk result (λ above. walk.new.turn ≡ walk.old.turn + 1) }
{
    walk_beside(alloc, app, walk, class)?;
    let kinds = walk.kinds().to_vec(alloc)?;
    let parent = app.class(class).parent;
    let unknown = is_unknown_parent(app, parent) || has_unknown(app, &kinds);
    Ok(AboveRow {
        parent,
        kinds,
        unknown,
    })
}

#[tactic(auto, using(crate::proofs::Rows::map_push))]
pub(crate) fn above_rows(alloc: Global, app: &App) -> Result<Vec<AboveRow>, AllocError>
    ensures { IfOk result (λ rows. rows.items ≡ map (above_of app.now) app.now.classes) }
{
    let mut walk = Walk::new(alloc, app.type_count() as usize)?;
    let mut rows = Vec::with_capacity(alloc, app.class_count() as usize)?;
    for c in 0..app.class_count() {
        rows.push(above_row(alloc, app, &mut walk, ClassNo(c))?)?;
    }
    Ok(rows)
}
