//! The table while it is made, and what the returns of each method gave so far.
ghost use Rattle.std.specs.Prelude.{◌≡◌, ◌<◌, ◌≤◌, ◌+◌, ◌*◌, ◌^◌, ◌↔◌, true, IsTrue, length, map};
ghost use Rattle.app_model.specs.TagTable.{tag_of};
ghost use Rattle.flow_model.specs.TagFlow.{IsLive};
ghost use Rattle.tag_rows.specs.Cells.{IsTagOf, Joins};
ghost use Rattle.tag_rows.specs.Runs.{Runs};
ghost use Rattle.tag_flow.specs.State.{IsSpot, IsState, answer_of, row_of};
ghost use Rattle.tag_flow.specs.Turns.{IsStep, pair_of};

use crate::agenda::{Agenda, Place};
use crate::known::{Known, Spot};
use crate::passing::Step;
use app_model::{Tag, TagTable};
use ns_base::MethodNo;
use std::marker::Model;
use tag_rows::{Pair, RowAt, Rows, Run};

/// The table, and beside it one of one row, with a cell for each method. The agenda has places worth a look; no
/// contract speaks of it.
#[derive(Drop)]
pub(crate) struct State {
    rows: Rows,
    answers: Rows,
    agenda: Agenda,
}

impl Model for State {
    ghost use Rattle.tag_flow.specs.State.{StateParts};

    ghost Value = { StateParts };

    ghost view = { λ s. record { table = s.rows; answers = s.answers } };
}

// The place of a cell among those of its method.
fn place_of(spot: Spot, register: usize) -> usize
    requires start { spot.start ≡ spot.index * spot.width }
    requires register { register < spot.width }
    requires narrow { spot.width ≤ 2 ^ 16 }
    ensures place { result ≡ spot.index * spot.width + register }
{
    spot.start + register
}

impl State {
    pub fn new(rows: Rows, answers: Rows, agenda: Agenda) -> State
        ensures table { result.table ≡ rows }
        ensures answers { result.answers ≡ answers }
    {
        State {
            rows,
            answers,
            agenda,
        }
    }

    pub fn into_table(self) -> TagTable
        ensures { result ≡ self.table }
    {
        self.rows.into_table()
    }

    /// The tags before an instruction.
    pub fn row(&self, known: &Known, spot: Spot) -> RowAt<'_>
        requires state { IsState known.now self.now }
        requires spot { IsSpot known.now spot }
        ensures { map tag_of result.cells.now ≡ row_of self.now spot }
    {
        known.told();
        self.rows.row(spot.method, spot.start, spot.width)
    }

    /// Whether something flows from there.
    pub fn is_live(&self, known: &Known, spot: Spot) -> bool
        requires state { IsState known.now self.now }
        requires spot { IsSpot known.now spot }
        ensures { IsTrue result ↔ IsLive (row_of self.now spot) }
    {
        self.row(known, spot).is_live()
    }

    /// Joins a tag into the cell of a register before an instruction.
    pub fn join(&mut self, known: &Known, spot: Spot, register: usize, tag: Tag) -> bool
        requires state { IsState known.now self.old }
        requires spot { IsSpot known.now spot }
        requires register { register < spot.width }
        requires tag { IsTagOf (length known.now.app.locks) tag }
        ensures joins { Joins self.old.table spot.method.0 (spot.index * spot.width + register) tag self.new.table result }
        ensures answers { self.new.answers ≡ self.old.answers }
    {
        known.told();
        self.rows.join(spot.method, place_of(spot, register), tag)
    }

    /// Joins the tags of registers, from a first one on, into their cells where a step leads; up to one that flows as
    /// another tag.
    pub fn join_run(&mut self, known: &Known, step: &Step, start: usize) -> Run
        requires step { IsStep known.now self.old step.now }
        requires start { start ≤ step.now.from.width }
        ensures runs { Runs (pair_of step.now) step.now.from.method.0 start self.old.table result.end self.new.table result.changed }
        ensures end { result.end ≤ step.now.from.width }
        ensures later { start ≤ result.end }
        ensures answers { self.new.answers ≡ self.old.answers }
    {
        known.told();
        let pair = Pair {
            from: step.from.start,
            to: step.to.start,
            width: step.from.width,
            kept: step.kept,
        };
        self.rows.join_run(step.from.method, &pair, start)
    }

    /// Adds an instruction to the agenda, where its row changed.
    pub fn note(&mut self, spot: Spot, changed: bool)
        ensures { self.new ≡ self.old }
    {
        if changed {
            self.agenda.add(spot.method, spot.index);
        }
    }

    /// What the returns of a method gave.
    pub fn answer(&self, known: &Known, method: MethodNo) -> Tag
        requires state { IsState known.now self.now }
        requires method { method.0 < length known.now.app.methods }
        ensures { result ≡ answer_of self.now method.0 }
    {
        self.answers.tag(MethodNo(0), method.0 as usize)
    }

    /// Joins a tag into what the returns of a method gave.
    pub fn join_answer(&mut self, known: &Known, method: MethodNo, tag: Tag) -> bool
        requires state { IsState known.now self.old }
        requires method { method.0 < length known.now.app.methods }
        requires tag { IsTagOf (length known.now.app.locks) tag }
        ensures joins { Joins self.old.answers 0 method.0 tag self.new.answers result }
        ensures table { self.new.table ≡ self.old.table }
    {
        known.told();
        let changed = self.answers.join(MethodNo(0), method.0 as usize, tag);
        if changed {
            self.agenda.add_callers(method, tag);
        }
        changed
    }

    /// Takes a place that is worth a look.
    pub fn take(&mut self) -> Option<Place>
        ensures { self.new ≡ self.old }
    {
        self.agenda.take()
    }
}
