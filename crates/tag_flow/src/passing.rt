//! What flows from an instruction to its successors and handlers.
ghost use Rattle.std.specs.Prelude.{ℕ, ◌≡◌, ◌<◌, ◌≤◌, Some};
ghost use Rattle.app_model.specs.Words.{handler_at, successor_at};
ghost use Rattle.tag_flow.specs.State.{IsSource};
ghost use Rattle.tag_flow.specs.Turns.{IsStep, Leads, Turn};
ghost use Rattle.tag_flow.specs.Goals.{AllHandled, AllSucceeded, Between, CellUnder, Handled, RowPassed, Succeeded, row_after};

use crate::known::{Known, Spot};
use crate::state::State;
use tag_rows::{Change, Kept, Run, change_tag, kept_by};

/// A change that flows from an instruction to another one of its method.
#[derive(Clone, Copy)]
pub(crate) struct Step {
    pub from: Spot,
    pub to: Spot,
    pub change: Change,
    pub kept: Kept,
}

// One cell, by its tag.
#[inline(never)]
fn pass_tag(known: &Known, state: &mut State, step: &Step, register: usize) -> bool
    requires step { IsStep known.now state.old step.now }
    requires register { register < step.now.from.width }
    ensures { Turn known.now (CellUnder known.now step.now.from.method.0 step.now.to.index (row_after step.now.from.method.0 step.now.from.index step.now.change) register) state.old state.new result }
{
    known.told();
    let tag = change_tag(&state.row(known, step.from), &step.change, register);
    state.join(known, step.to, register, tag)
}

// The cells of registers from a first one on, up to one whose tag the change does not keep.
fn pass_kept(known: &Known, state: &mut State, step: &Step, start: usize) -> Run
    requires step { IsStep known.now state.old step.now }
    requires start { start ≤ step.now.from.width }
    ensures turn { Turn known.now (Between (CellUnder known.now step.now.from.method.0 step.now.to.index (row_after step.now.from.method.0 step.now.from.index step.now.change)) start result.end) state.old state.new result.changed }
    ensures end { result.end ≤ step.now.from.width }
    ensures later { start ≤ result.end }
{
    known.told();
    state.join_run(known, step, start)
}

// The same, and that one.
fn pass_part(known: &Known, state: &mut State, step: &Step, start: usize) -> Run
    requires step { IsStep known.now state.old step.now }
    requires start { start < step.now.from.width }
    ensures turn { Turn known.now (Between (CellUnder known.now step.now.from.method.0 step.now.to.index (row_after step.now.from.method.0 step.now.from.index step.now.change)) start result.end) state.old state.new result.changed }
    ensures end { result.end ≤ step.now.from.width }
    ensures later { start < result.end }
{
    let run = pass_kept(known, state, step, start);
    if run.end == step.from.width {
        return run;
    }
    let changed = pass_tag(known, state, step, run.end);
    Run {
        end: run.end + 1,
        changed: run.changed | changed,
    }
}

fn pass_cells(known: &Known, state: &mut State, step: &Step) -> bool
    requires step { IsStep known.now state.old step.now }
    ensures { Turn known.now (RowPassed known.now step.now.from.method.0 step.now.to.index (row_after step.now.from.method.0 step.now.from.index step.now.change)) state.old state.new result }
{
    let mut changed = false;
    let mut register = 0;
    while register < step.from.width {
        let part = pass_part(known, state, step, register);
        changed |= part.changed;
        register = part.end;
    }
    changed
}

fn pass_row(known: &Known, state: &mut State, step: &Step) -> bool
    requires step { IsStep known.now state.old step.now }
    ensures { Turn known.now (RowPassed known.now step.now.from.method.0 step.now.to.index (row_after step.now.from.method.0 step.now.from.index step.now.change)) state.old state.new result }
{
    let changed = pass_cells(known, state, step);
    state.note(step.to, changed);
    changed
}

// A change to another instruction of the method.
fn pass_to(known: &Known, state: &mut State, from: Spot, change: &Change, to: u32) -> bool
    requires source { IsSource known.now state.old from }
    requires leads { Leads known.now from.method.0 from.index to change.now }
    ensures { Turn known.now (RowPassed known.now from.method.0 to (row_after from.method.0 from.index change.now)) state.old state.new result }
{
    known.told();
    let to = known.beside(from, to);
    let kept = kept_by(change, from.width);
    let step = Step {
        from,
        to,
        change: *change,
        kept,
    };
    pass_row(known, state, &step)
}

/// A change to each successor.
#[inline(always)]
pub(crate) fn to_successors(known: &Known, state: &mut State, from: Spot, change: &Change) -> bool
    requires source { IsSource known.now state.old from }
    requires leads { (x j : ℕ) → successor_at known.now.app from.method.0 from.index x ≡ Some j → Leads known.now from.method.0 from.index j change.now }
    ensures { Turn known.now (AllSucceeded known.now from.method.0 from.index change.now) state.old state.new result }
{
    known.told();
    let mut changed = false;
    for number in 0..u32::MAX {
        let Some(to) = known.successor(from, number) else {
            return changed;
        };
        changed |= pass_to(known, state, from, change, to);
    }
    changed
}

/// A change to each handler.
#[inline(always)]
pub(crate) fn to_handlers(known: &Known, state: &mut State, from: Spot, change: &Change) -> bool
    requires source { IsSource known.now state.old from }
    requires leads { (x j : ℕ) → handler_at known.now.app from.method.0 from.index x ≡ Some j → Leads known.now from.method.0 from.index j change.now }
    ensures { Turn known.now (AllHandled known.now from.method.0 from.index change.now) state.old state.new result }
{
    known.told();
    let mut changed = false;
    for number in 0..u32::MAX {
        let Some(to) = known.handler(from, number) else {
            return changed;
        };
        changed |= pass_to(known, state, from, change, to);
    }
    changed
}
