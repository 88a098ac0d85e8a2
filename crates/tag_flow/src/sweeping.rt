//! Sweeps over all instructions, until one changes nothing. Between them the agenda brings the table near.
ghost use Rattle.std.specs.Prelude.{◌≡◌, ◌<◌, true, length, Contains};
ghost use Rattle.app_model.specs.Components.{entries_of};
ghost use Rattle.app_model.specs.Words.{code_len};
ghost use Rattle.tag_flow.specs.Known.{IsClosed, is_reached};
ghost use Rattle.tag_flow.specs.State.{IsState};
ghost use Rattle.tag_flow.specs.Turns.{Begins, Holds, IsBelow, Turn};
ghost use Rattle.tag_flow.specs.Goals.{AllVisited, Below, CellUnder, EntryBegun, EntryNoBegun, IsVisited, MethodVisited, RowPassed, begun_row};

use crate::agenda::Place;
use crate::known::{Known, Spot};
use crate::state::State;
use crate::visiting::visit;
use ns_base::MethodNo;
use tag_rows::callback_tag;

// ---- the entries of callbacks

fn begin_cell(known: &Known, state: &mut State, to: Spot, register: usize) -> bool
    requires state { IsState known.now state.old }
    requires begins { Begins known.now to }
    requires register { register < to.width }
    ensures { Turn known.now (CellUnder known.now to.method.0 0 (begun_row known.now to.method.0) register) state.old state.new result }
{
    known.told();
    let method = known.method(to.method);
    let tag = callback_tag(known.app, method, register);
    state.join(known, to, register, tag)
}

fn begin_cells(known: &Known, state: &mut State, to: Spot) -> bool
    requires state { IsState known.now state.old }
    requires begins { Begins known.now to }
    ensures { Turn known.now (RowPassed known.now to.method.0 0 (begun_row known.now to.method.0)) state.old state.new result }
{
    let mut changed = false;
    for register in 0..to.width {
        changed |= begin_cell(known, state, to, register);
    }
    changed
}

fn begin_row(known: &Known, state: &mut State, to: Spot) -> bool
    requires state { IsState known.now state.old }
    requires begins { Begins known.now to }
    ensures { Turn known.now (RowPassed known.now to.method.0 0 (begun_row known.now to.method.0)) state.old state.new result }
{
    let changed = begin_cells(known, state, to);
    state.note(to, changed);
    changed
}

fn begin(known: &Known, state: &mut State, method: MethodNo) -> bool
    requires state { IsState known.now state.old }
    requires entry { Contains (entries_of known.now.list) method }
    ensures { Turn known.now (EntryBegun known.now method) state.old state.new result }
{
    known.told();
    if known.code_len(method) == 0 {
        return false;
    }
    let to = known.spot(method, 0);
    begin_row(known, state, to)
}

fn begin_entries(known: &Known, state: &mut State) -> bool
    requires { IsState known.now state.old }
    ensures { Turn known.now (Below (EntryNoBegun known.now) (length (entries_of known.now.list))) state.old state.new result }
{
    let entries = known.entries();
    let mut changed = false;
    for i in 0..entries.len() {
        changed |= begin(known, state, entries[i]);
    }
    changed
}

// ---- all instructions

fn visit_method(known: &Known, state: &mut State, method: MethodNo) -> bool
    requires state { IsState known.now state.old }
    requires method { method.0 < length known.now.app.methods }
    ensures { Turn known.now (MethodVisited known.now method.0) state.old state.new result }
{
    if !known.is_reached(method) {
        return false;
    }
    visit_code(known, state, method)
}

fn visit_code(known: &Known, state: &mut State, method: MethodNo) -> bool
    requires state { IsState known.now state.old }
    requires method { method.0 < length known.now.app.methods }
    requires reached { is_reached known.now method.0 ≡ true }
    ensures { Turn known.now (Below (IsVisited known.now method.0) (code_len known.now.app method.0)) state.old state.new result }
{
    let mut changed = false;
    for index in 0..known.code_len(method) {
        let spot = known.spot(method, index);
        changed |= visit(known, state, spot);
    }
    changed
}

fn visit_all(known: &Known, state: &mut State) -> bool
    requires { IsState known.now state.old }
    ensures { Turn known.now (Below (MethodVisited known.now) (length known.now.app.methods)) state.old state.new result }
{
    let mut changed = false;
    for method in 0..known.method_count() {
        changed |= visit_method(known, state, MethodNo(method));
    }
    changed
}

fn sweep(known: &Known, state: &mut State) -> bool
    requires { IsState known.now state.old }
    ensures { Turn known.now (AllVisited known.now) state.old state.new result }
{
    let begun = begin_entries(known, state);
    let visited = visit_all(known, state);
    begun | visited
}

// ---- places of the agenda

fn look(known: &Known, state: &mut State, place: Place)
    requires { IsState known.now state.old }
    ensures { Holds known.now state.old state.new }
{
    let method = place.method;
    if method.0 >= known.method_count() || !known.is_reached(method) {
        return;
    }
    if place.index < known.code_len(method) {
        let spot = known.spot(method, place.index);
        visit(known, state, spot);
    }
}

// Until the agenda is empty. The bound is never met: a bounded loop needs no measure, and what it cuts off is
// found by the sweeps.
fn settle(known: &Known, state: &mut State)
    requires { IsState known.now state.old }
    ensures { Holds known.now state.old state.new }
{
    for _ in 0..u64::MAX {
        let Some(place) = state.take() else {
            return;
        };
        look(known, state, place);
    }
}

/// Brings the table to the least closed one.
pub(crate) fn close(known: &Known, state: &mut State)
    requires state { IsState known.now state.old }
    requires below { IsBelow known.now state.old }
    ensures state { IsState known.now state.new }
    ensures below { IsBelow known.now state.new }
    ensures closed { IsClosed known.now state.new.table }
{
    known.told();
    begin_entries(known, state);
    let mut changed = true;
    while changed {
        settle(known, state);
        changed = sweep(known, state);
    }
}
