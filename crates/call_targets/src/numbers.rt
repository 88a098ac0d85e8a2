//! The sets that calls share, numbered in one pass over the instructions.
ghost use Rattle.std.specs.Prelude.{◌≡◌, ◌<◌, ℕ, IfOk, IfSome, Some, None, [], ◌∷◌, length, slice_get, slice_set};
ghost use Rattle.app_model.specs.Parts.{AppParts};
ghost use Rattle.app_model.specs.Sound.{IsType};
ghost use Rattle.app_model.specs.Targets.{CallAt, key_at, targets_of_call};
ghost use Rattle.app_model.specs.LockUse.{invoke_of};
ghost use Rattle.app_model.specs.Words.{code_len, ins_at};
ghost use Rattle.call_targets.specs.Sources.{IsIndex, key_parts, row_from};
ghost use Rattle.call_targets.specs.Numbered.{Adds, AddsCall, AddsSource, AreUses, IsNumbered, IsSet, IsTable, AddsUse, AddsUses, number_in, one_more, with_rows};
ghost use Rattle.call_targets.specs.declared.numbers.SetRow.{SetRow};

use crate::sources::{Index, Key, Source, key_of, source_of};
use app_model::{App, Named};
use dalvik::Ins;
use ns_base::MethodNo;
use std::alloc::{AllocError, Global};
use std::collections::HashMap;
use std::marker::Model;

/// A set of targets that calls share: where it is looked up, and how many keys have it.
#[derive(Clone, Copy)]
pub(crate) struct SetRow {
    pub source: Source,
    pub keys: u64,
}

/// The keys met so far with the number of each one's set, and the sets.
#[derive(Drop)]
struct Table {
    keys: HashMap<Key, u32>,
    sources: HashMap<Source, u32>,
    rows: Vec<SetRow>,
}

impl Model for Table {
    ghost use Rattle.call_targets.specs.Numbered.{TableParts};

    ghost Value = { TableParts };

    ghost view = { λ t. record { keys = t.keys.entries; sources = t.sources.entries; rows = t.rows.items } };
}

/// The sets that calls share; `uses[m][i]` is the number of the set of instruction i of method m.
#[derive(Drop)]
pub(crate) struct Numbered {
    pub rows: Vec<SetRow>,
    pub uses: Vec<Vec<Option<u32>>>,
}

impl Model for Numbered {
    ghost use Rattle.call_targets.specs.Numbered.{NumberedParts};
    ghost use Rattle.std.specs.Prelude.{map};

    ghost Value = { NumberedParts };

    ghost view = { λ n. record { rows = n.rows.items; uses = map (λ v. v.items) n.uses.items } };
}

impl Table {
    fn new(alloc: Global) -> Table
        ensures { result ≡ record { keys = []; sources = []; rows = [] } }
    {
        Table {
            keys: HashMap::new(alloc),
            sources: HashMap::new(alloc),
            rows: Vec::new(alloc),
        }
    }

    fn find(&self, key: Key) -> Option<u32>
        ensures { result ≡ number_in self.now.keys key }
    {
        self.keys.get(&key).copied()
    }

    // The number of the set of a source. More sets than there are numbers are taken for want of memory.
    fn number(&mut self, source: Source) -> Result<u32, AllocError>
        ensures { IfOk result (λ number. (app : AppParts) → IsTable app self.old → AddsSource app source self.old self.new number) }
    {
        if let Some(number) = self.sources.get(&source).copied() {
            return Ok(number);
        }
        let number = self.rows.len();
        if number > u32::MAX as usize {
            return Err(AllocError);
        }
        self.rows.push(SetRow { source, keys: 0 })?;
        self.sources.insert(source, number as u32)?;
        Ok(number as u32)
    }

    // One more key for a set. More keys than can be counted are taken for want of memory.
    fn count(&mut self, number: u32) -> Result<(), AllocError>
        requires { number < length self.old.rows }
        ensures { IfOk result (λ done. (row : SetRow) → slice_get self.old.rows number ≡ Some row → self.new ≡ with_rows self.old (slice_set self.old.rows number (one_more row))) }
    {
        let row = self.rows[number as usize];
        let Some(keys) = row.keys.checked_add(1) else {
            return Err(AllocError);
        };
        self.rows[number as usize] = SetRow {
            source: row.source,
            keys,
        };
        Ok(())
    }

    // A key that is not there yet, with the set of its source.
    fn add(&mut self, key: Key, source: Source) -> Result<u32, AllocError>
        requires { number_in self.old.keys key ≡ None }
        ensures { IfOk result (λ number. (app : AppParts) (call : CallAt) → IsTable app self.old → key ≡ key_parts (key_at app call)
            → row_from app source ≡ targets_of_call app call.method call.op call.named → AddsCall app call self.old self.new number) }
    {
        let number = self.number(source)?;
        if number as usize >= self.rows.len() {
            return Err(AllocError);
        }
        self.count(number)?;
        self.keys.insert(key, number)?;
        Ok(number)
    }
}

// The set of the call that names a method.
fn number_named(
    app: &App,
    index: &Index,
    table: &mut Table,
    method: MethodNo,
    op: u8,
    named: Named,
) -> Result<u32, AllocError>
    requires index { IsIndex app.now index.now }
    requires table { IsTable app.now table.old }
    requires method { method.0 < length app.now.methods }
    requires named { IsType app.now named.class }
    ensures { IfOk result (AddsCall app.now (record { method = method.0; op = op; named = named }) table.old table.new) }
{
    let key = key_of(app, op, method, named);
    match table.find(key) {
        Some(number) => Ok(number),
        None => table.add(key, source_of(app, index, op, method, named)),
    }
}

// The opcode of an instruction that is an invoke.
fn invoked(app: &App, method: MethodNo, i: u32) -> Option<u8>
    requires method { method.0 < length app.now.methods }
    requires i { i < code_len app.now method.0 }
    ensures { result ≡ invoke_of (ins_at app.now method.0 i) }
{
    match app.ins(method, i).1 {
        Ins::Invoke { op, .. } => Some(op),
        _ => None,
    }
}

// What an instruction uses: the set of its call, or nothing where it is none.
fn number_call(
    app: &App,
    index: &Index,
    table: &mut Table,
    method: MethodNo,
    i: u32,
) -> Result<Option<u32>, AllocError>
    requires index { IsIndex app.now index.now }
    requires table { IsTable app.now table.old }
    requires method { method.0 < length app.now.methods }
    requires i { i < code_len app.now method.0 }
    ensures { IfOk result (λ used. AddsUse app.now method.0 i table.old table.new used) }
{
    let Some(op) = invoked(app, method, i) else {
        return Ok(None);
    };
    match app.named(method, i) {
        Some(named) => Ok(Some(number_named(app, index, table, method, op, named)?)),
        None => Ok(None),
    }
}

// What the instructions of a method use.
fn number_method(
    alloc: Global,
    app: &App,
    index: &Index,
    table: &mut Table,
    method: MethodNo,
) -> Result<Vec<Option<u32>>, AllocError>
    requires index { IsIndex app.now index.now }
    requires table { IsTable app.now table.old }
    requires method { method.0 < length app.now.methods }
    ensures { IfOk result (λ uses. AddsUses app.now method.0 (code_len app.now method.0) table.old table.new uses.items) }
{
    let mut uses = Vec::with_capacity(alloc, app.code_len(method) as usize)?;
    for i in 0..app.code_len(method) {
        uses.push(number_call(app, index, table, method, i)?)?;
    }
    Ok(uses)
}

/// The sets that the calls of all methods share.
pub(crate) fn number_calls(alloc: Global, app: &App, index: &Index) -> Result<Numbered, AllocError>
    requires { IsIndex app.now index.now }
    ensures { IfOk result (IsNumbered app.now) }
{
    let mut table = Table::new(alloc);
    let mut uses = Vec::with_capacity(alloc, app.method_count() as usize)?;
    for m in 0..app.method_count() {
        uses.push(number_method(alloc, app, index, &mut table, MethodNo(m))?)?;
    }
    Ok(Numbered {
        rows: table.rows,
        uses,
    })
}
