//! The table of an application: its cells counted and made, and brought to the least closed table.
ghost use Rattle.std.specs.Prelude.{◌≡◌, ◌≤◌, ◌<◌, ◌↔◌, ◌∷◌, [], true, IfErr, IfOk, length, map, replicate};
ghost use Rattle.ns_base.specs.Answers.{limit_of};
ghost use Rattle.ns_base.specs.declared.answers.Counted.TheVariants.{Sites, TagCells};
ghost use Rattle.app_model.specs.Components.{BelongsTo};
ghost use Rattle.app_model.specs.Sites.{sites_below};
ghost use Rattle.app_model.specs.TagTable.{cell_total};
ghost use Rattle.app_model.specs.Targets.{IsCallGraph};
ghost use Rattle.class_graph.specs.Belongs.{IsClassGraph};
ghost use Rattle.flow_model.specs.TagFlow.{IsTagTableOf};
ghost use Rattle.tag_flow.specs.Answers.{HasFew, IsCause};
ghost use Rattle.tag_flow.specs.Known.{is_reached, registers_of};
ghost use Rattle.tag_flow.specs.State.{AreRows, IsEmpty, IsState};
ghost use Rattle.tag_flow.specs.Turns.{IsBelow};

use crate::agenda::Agenda;
use crate::fault::TagFault;
use crate::known::Known;
use crate::state::State;
use crate::sweeping::close;
use app_model::{App, CallGraph, ComponentTable, TagTable};
use class_graph::ClassGraph;
use ns_base::{Counted, MethodNo, OutOfMemory, limit};
use std::alloc::{AllocError, Global};
use tag_rows::Rows;

// Whether the table has no more cells than are allowed.
fn is_small(known: &Known) -> bool
    ensures { (result ≡ true) ↔ (cell_total known.now.app (is_reached known.now) ≤ limit_of TagCells) }
{
    let mut total = 0;
    for method in 0..known.method_count() {
        total += known.cells_of(MethodNo(method));
        if total > limit(Counted::TagCells) {
            return false;
        }
    }
    true
}

fn empty_cells(alloc: Global, count: usize) -> Result<Vec<u16>, AllocError>
    ensures { IfOk result (λ cells. cells.items ≡ replicate count 0) }
{
    vec![in alloc; 0; count]
}

// A row of cells for each method, all of Bot.
fn make_rows(alloc: Global, known: &Known) -> Result<Vec<Vec<u16>>, AllocError>
    ensures { IfOk result (λ rows. AreRows known.now (length known.now.app.methods) (map (λ v. v.items) rows.items)) }
{
    let mut rows = Vec::new(alloc);
    for method in 0..known.method_count() {
        let cells = empty_cells(alloc, known.cells_of(MethodNo(method)) as usize)?;
        rows.push(cells)?;
    }
    Ok(rows)
}

fn registers(alloc: Global, app: &App) -> Result<Vec<u32>, AllocError>
    ensures { IfOk result (λ registers. registers.items ≡ registers_of app.now) }
{
    let mut registers = Vec::new(alloc);
    for method in 0..app.method_count() {
        registers.push(app.method(MethodNo(method)).registers as u32)?;
    }
    Ok(registers)
}

// One row, with a cell for each method.
fn make_answers(alloc: Global, methods: u32) -> Result<Rows, AllocError>
    ensures { IfOk result (λ rows. rows ≡ record { registers = 0 ∷ []; cells = replicate methods 0 ∷ [] }) }
{
    let mut registers = Vec::new(alloc);
    registers.push(0)?;
    let mut rows = Vec::new(alloc);
    let cells = empty_cells(alloc, methods as usize)?;
    rows.push(cells)?;
    Ok(Rows::new(registers, rows))
}

fn make_table(alloc: Global, known: &Known) -> Result<Rows, AllocError>
    ensures { IfOk result (IsEmpty known.now) }
{
    let registers = registers(alloc, known.app)?;
    let rows = make_rows(alloc, known)?;
    Ok(Rows::new(registers, rows))
}

fn begin(alloc: Global, known: &Known) -> Result<State, AllocError>
    ensures state { IfOk result (IsState known.now) }
    ensures below { IfOk result (IsBelow known.now) }
{
    known.told();
    let table = make_table(alloc, known)?;
    let answers = make_answers(alloc, known.method_count())?;
    let agenda = Agenda::new(alloc, known)?;
    let state = State::new(table, answers, agenda);
    Ok(state)
}

// The table of what is known.
fn find_table(alloc: Global, known: &Known) -> Result<TagTable, AllocError>
    ensures { IfOk result (IsTagTableOf known.now.app known.now.graph known.now.list) }
{
    known.told();
    let mut state = begin(alloc, known)?;
    close(known, &mut state);
    Ok(state.into_table())
}

/// The least closed table of tags of an application. `Limit` comes before any table is made.
pub fn tags(
    alloc: Global,
    app: &App,
    _classes: &ClassGraph,
    graph: &CallGraph,
    list: &ComponentTable,
) -> Result<TagTable, TagFault>
    requires classes { IsClassGraph app.now _classes.now }
    requires graph { IsCallGraph app.now graph.now }
    requires list { BelongsTo app.now list.now }
    requires sites { sites_below app.now (length app.now.methods) ≤ limit_of Sites }
    ensures table { IfOk result (IsTagTableOf app.now graph.now list.now) }
    ensures few { IfOk result (λ table. HasFew app.now graph.now list.now) }
    ensures cause { IfErr result (IsCause app.now graph.now list.now) }
{
    let Ok(known) = Known::find(alloc, app, graph, list) else {
        return Err(TagFault::Memory);
    };
    known.told();
    if !is_small(&known) {
        return Err(TagFault::Limit(Counted::TagCells));
    }
    match find_table(alloc, &known) {
        Ok(table) => Ok(table),
        Err(AllocError) => Err(TagFault::Memory),
    }
}
