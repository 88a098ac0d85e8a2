//! What flows into callees, past calls, and back.
ghost use Rattle.std.specs.Prelude.{ℕ, ◌≡◌, ◌<◌, List, Some, Contains, length, slice_get, true};
ghost use Rattle.app_model.specs.CallGraph.{callees_at};
ghost use Rattle.app_model.specs.Words.{code_len, successor_at};
ghost use Rattle.app_model.specs.TagTable.{tag_at};
ghost use Rattle.act_model.specs.Acts.{act_at};
ghost use Rattle.act_model.specs.Changes.{tag_in};
ghost use Rattle.act_model.specs.Tags.{Under};
ghost use Rattle.flow_model.specs.TagFlow as flow;
ghost use Rattle.tag_flow.specs.State.{IsSource, IsSpot, IsState, row_of};
ghost use Rattle.tag_flow.specs.Turns.{Enters, IsUnion, Turn, handing_of, returned_of};
ghost use Rattle.tag_flow.specs.Goals.{AnswerAt, Below, CallPassed, CalleeDone, CalleeNoDone, CameBack, Called, CellUnder, Entered, GaveBack, RowPassed, entering_row};

use crate::known::{Known, Spot};
use crate::passing::{to_handlers, to_successors};
use crate::state::State;
use act_model::{Act, Returned, Row};
use app_model::{By, Tag};
use dalvik::Args;
use ns_base::MethodNo;
use tag_rows::{Change, called_tag, entering};

/// How a call hands its arguments on.
#[derive(Clone, Copy)]
pub(crate) struct Handing {
    pub by: By,
    pub args: Args,
}

fn handing_of(act: &Act) -> Option<Handing>
    ensures { result ≡ handing_of act.now }
{
    match *act {
        Act::Call { by, args, .. } => Some(Handing { by, args }),
        _ => None,
    }
}

// ---- into a callee

fn enter_cell(
    known: &Known,
    state: &mut State,
    from: Spot,
    handing: &Handing,
    to: Spot,
    register: usize,
) -> bool
    requires source { IsSource known.now state.old from }
    requires enters { Enters known.now from handing.now to }
    requires register { register < to.width }
    ensures { Turn known.now (CellUnder known.now to.method.0 0 (entering_row known.now from.method.0 from.index to.method.0 handing.now.by handing.now.args) register) state.old state.new result }
{
    known.told();
    let method = known.method(to.method);
    let tag = called_tag(
        &state.row(known, from),
        handing.by,
        &handing.args,
        method,
        register,
    );
    state.join(known, to, register, tag)
}

// How many first registers of a callee need no look: those that are no arguments, where all of them are Zero already.
fn first_open(known: &Known, state: &State, to: Spot) -> usize
    requires state { IsState known.now state.now }
    requires spot { IsSpot known.now to }
    requires first { to.index ≡ 0 }
    ensures { (words : List Tag) (r : ℕ) → r < result → Under (tag_in (flow.callee_row (slice_get known.now.app.methods to.method.0) words) r) (tag_at state.now.table to.method.0 0 r) }
{
    known.told();
    let method = known.method(to.method);
    let first = method.registers as usize - method.ins as usize;
    if state.row(known, to).starts_zero(first) {
        return first;
    }
    0
}

fn enter_cells(known: &Known, state: &mut State, from: Spot, handing: &Handing, to: Spot) -> bool
    requires source { IsSource known.now state.old from }
    requires enters { Enters known.now from handing.now to }
    ensures { Turn known.now (RowPassed known.now to.method.0 0 (entering_row known.now from.method.0 from.index to.method.0 handing.now.by handing.now.args)) state.old state.new result }
{
    let mut changed = false;
    let first = first_open(known, state, to);
    for register in first..to.width {
        changed |= enter_cell(known, state, from, handing, to, register);
    }
    changed
}

fn enter_row(known: &Known, state: &mut State, from: Spot, handing: &Handing, to: Spot) -> bool
    requires source { IsSource known.now state.old from }
    requires enters { Enters known.now from handing.now to }
    ensures { Turn known.now (RowPassed known.now to.method.0 0 (entering_row known.now from.method.0 from.index to.method.0 handing.now.by handing.now.args)) state.old state.new result }
{
    let changed = enter_cells(known, state, from, handing, to);
    state.note(to, changed);
    changed
}

fn enter(known: &Known, state: &mut State, from: Spot, act: &Act, callee: MethodNo) -> bool
    requires source { IsSource known.now state.old from }
    requires act { act_at known.now.app from.method.0 from.index ≡ Some act.now }
    requires callee { Contains (callees_at known.now.graph from.method.0 from.index) callee }
    ensures { Turn known.now (Entered known.now from.method.0 from.index act.now callee) state.old state.new result }
{
    known.told();
    let Some(handing) = handing_of(act) else {
        return false;
    };
    if known.code_len(callee) == 0 {
        return false;
    }
    let to = known.spot(callee, 0);
    enter_row(known, state, from, &handing, to)
}

// ---- back from a callee

// What the returns of a callee gave, into the result cell of a successor.
fn come_back_to(known: &Known, state: &mut State, from: Spot, to: u32, callee: MethodNo) -> bool
    requires source { IsSource known.now state.old from }
    requires to { (x : ℕ) × (successor_at known.now.app from.method.0 from.index x ≡ Some to) }
    requires callee { Contains (callees_at known.now.graph from.method.0 from.index) callee }
    ensures { Turn known.now (AnswerAt known.now from.method.0 to callee) state.old state.new result }
{
    known.told();
    let to = known.beside(from, to);
    let tag = state.answer(known, callee);
    let changed = state.join(known, to, to.width - 1, tag);
    state.note(to, changed);
    changed
}

fn come_back(known: &Known, state: &mut State, from: Spot, callee: MethodNo) -> bool
    requires source { IsSource known.now state.old from }
    requires callee { Contains (callees_at known.now.graph from.method.0 from.index) callee }
    ensures { Turn known.now (CameBack known.now from.method.0 from.index callee) state.old state.new result }
{
    known.told();
    let mut changed = false;
    for number in 0..u32::MAX {
        let Some(to) = known.successor(from, number) else {
            return changed;
        };
        changed |= come_back_to(known, state, from, to, callee);
    }
    changed
}

// ---- a call

fn call_one(known: &Known, state: &mut State, from: Spot, act: &Act, callee: MethodNo) -> bool
    requires source { IsSource known.now state.old from }
    requires act { act_at known.now.app from.method.0 from.index ≡ Some act.now }
    requires callee { Contains (callees_at known.now.graph from.method.0 from.index) callee }
    ensures { Turn known.now (CalleeDone known.now from.method.0 from.index act.now callee) state.old state.new result }
{
    let entered = enter(known, state, from, act, callee);
    let back = come_back(known, state, from, callee);
    entered | back
}

fn call_all(known: &Known, state: &mut State, from: Spot, act: &Act, callees: &[MethodNo]) -> bool
    requires source { IsSource known.now state.old from }
    requires act { act_at known.now.app from.method.0 from.index ≡ Some act.now }
    requires callees { callees.now ≡ callees_at known.now.graph from.method.0 from.index }
    ensures { Turn known.now (Below (CalleeNoDone known.now from.method.0 from.index act.now) (length (callees_at known.now.graph from.method.0 from.index))) state.old state.new result }
{
    let mut changed = false;
    for i in 0..callees.len() {
        changed |= call_one(known, state, from, act, callees[i]);
    }
    changed
}

// Past a call of some callee, and where it throws.
fn pass_call(known: &Known, state: &mut State, from: Spot, gone: u64) -> bool
    requires source { IsSource known.now state.old from }
    requires gone { IsUnion known.now from.method.0 from.index gone }
    ensures { Turn known.now (CallPassed known.now from.method.0 from.index gone) state.old state.new result }
{
    let past = to_successors(known, state, from, &Change::Past { gone });
    let out = to_handlers(known, state, from, &Change::Out { gone });
    past | out
}

/// All that flows by the callees of an instruction.
pub(crate) fn call(known: &Known, state: &mut State, from: Spot, act: &Act) -> bool
    requires source { IsSource known.now state.old from }
    requires act { act_at known.now.app from.method.0 from.index ≡ Some act.now }
    ensures { Turn known.now (Called known.now from.method.0 from.index act.now) state.old state.new result }
{
    let callees = known.callees(from);
    let count = callees.len();
    if count == 0 {
        return false;
    }
    let gone = known.gone(from, callees);
    let passed = pass_call(known, state, from, gone);
    let called = call_all(known, state, from, act, callees);
    passed | called
}

// ---- a return

fn returned_of(act: &Act) -> Option<Returned>
    ensures { result ≡ returned_of act.now }
{
    match *act {
        Act::Return { returned } => Some(returned),
        _ => None,
    }
}

fn answered<R: Row>(row: &R, returned: Returned) -> Tag
    ensures { result ≡ flow.answered returned (R.tags row.now) }
{
    match returned {
        Returned::Nothing => Tag::Zero,
        Returned::Wide => Tag::Any,
        Returned::Register(register) => entering(row.tag(register as usize)),
    }
}

/// What a return gives.
pub(crate) fn give_back(known: &Known, state: &mut State, from: Spot, act: &Act) -> bool
    requires source { IsSource known.now state.old from }
    requires act { act_at known.now.app from.method.0 from.index ≡ Some act.now }
    ensures { Turn known.now (GaveBack known.now from.method.0 from.index act.now) state.old state.new result }
{
    known.told();
    let Some(returned) = returned_of(act) else {
        return false;
    };
    let tag = answered(&state.row(known, from), returned);
    state.join_answer(known, from.method, tag)
}
