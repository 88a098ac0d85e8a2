//! All that flows from one instruction.
ghost use Rattle.std.specs.Prelude.{◌≡◌, ◌<◌, ◌&&◌, ◌||◌, Some, not};
ghost use Rattle.act_model.specs.Acts.{act_at};
ghost use Rattle.app_model.specs.CallGraph.{outside_at};
ghost use Rattle.flow_model.specs.TagFlow as flow;
ghost use Rattle.tag_flow.specs.State.{IsSource, IsSpot, IsState};
ghost use Rattle.tag_flow.specs.Turns.{Turn, goes_by_itself};
ghost use Rattle.tag_flow.specs.Goals.{Called, GaveBack, IsVisited, Threw, WentOn};

use crate::calling::{call, give_back};
use crate::known::{Known, Spot};
use crate::passing::{to_handlers, to_successors};
use crate::state::State;
use act_model::{Act, Throws};
use tag_rows::Change;

fn may_throw(throws: Throws) -> bool
    ensures { result ≡ flow.may_throw throws }
{
    match throws {
        Throws::Never => false,
        Throws::ByChoice | Throws::WhereZero(_) => true,
    }
}

fn can_throw(act: &Act) -> bool
    ensures { result ≡ flow.can_throw act.now }
{
    match *act {
        Act::Write { throws, .. }
        | Act::ReadSlot { throws, .. }
        | Act::WriteSlot { throws, .. }
        | Act::Give { throws, .. }
        | Act::Check { throws } => may_throw(throws),
        Act::Throw { .. } | Act::Call { .. } => true,
        Act::Go
        | Act::Test { .. }
        | Act::Copy { .. }
        | Act::TakeResult { .. }
        | Act::Fill { .. }
        | Act::Return { .. } => false,
    }
}

// Whether an act leads on by itself; a call where it leads outside.
fn goes_by_itself(known: &Known, from: Spot, act: &Act) -> bool
    ensures { result ≡ goes_by_itself act.now (outside_at known.now.graph from.method.0 from.index) }
{
    match *act {
        Act::Throw { .. } | Act::Return { .. } => false,
        Act::Call { .. } => known.outside(from),
        _ => true,
    }
}

fn go_on(known: &Known, state: &mut State, from: Spot, act: &Act) -> bool
    requires source { IsSource known.now state.old from }
    requires act { act_at known.now.app from.method.0 from.index ≡ Some act.now }
    ensures { Turn known.now (WentOn known.now from.method.0 from.index act.now) state.old state.new result }
{
    if !goes_by_itself(known, from, act) {
        return false;
    }
    let site = known.site(from, act);
    to_successors(known, state, from, &Change::After { site, act: *act })
}

fn throw(known: &Known, state: &mut State, from: Spot, act: &Act) -> bool
    requires source { IsSource known.now state.old from }
    requires act { act_at known.now.app from.method.0 from.index ≡ Some act.now }
    ensures { Turn known.now (Threw known.now from.method.0 from.index act.now) state.old state.new result }
{
    if !can_throw(act) {
        return false;
    }
    to_handlers(known, state, from, &Change::Thrown { act: *act })
}

fn go_or_throw(known: &Known, state: &mut State, from: Spot, act: &Act) -> bool
    requires source { IsSource known.now state.old from }
    requires act { act_at known.now.app from.method.0 from.index ≡ Some act.now }
    ensures { Turn known.now (λ s. WentOn known.now from.method.0 from.index act.now s × Threw known.now from.method.0 from.index act.now s) state.old state.new result }
{
    let on = go_on(known, state, from, act);
    let thrown = throw(known, state, from, act);
    on | thrown
}

// A call of some callee can come back, and a call gives nothing back by itself.
fn call_and_go(known: &Known, state: &mut State, from: Spot, act: &Act) -> bool
    requires source { IsSource known.now state.old from }
    requires act { act_at known.now.app from.method.0 from.index ≡ Some act.now }
    ensures { Turn known.now (λ s. (WentOn known.now from.method.0 from.index act.now s × Threw known.now from.method.0 from.index act.now s) × Called known.now from.method.0 from.index act.now s) state.old state.new result }
{
    let gone = go_or_throw(known, state, from, act);
    let called = call(known, state, from, act);
    gone | called
}

// By what the act is: most are no calls, and call nothing.
fn visit_live(known: &Known, state: &mut State, spot: Spot) -> bool
    requires source { IsSource known.now state.old spot }
    ensures { Turn known.now (IsVisited known.now spot.method.0 spot.index) state.old state.new result }
{
    known.told();
    let act = known.act(spot);
    match act {
        Act::Call { .. } => call_and_go(known, state, spot, &act),
        Act::Return { .. } => give_back(known, state, spot, &act),
        _ => go_or_throw(known, state, spot, &act),
    }
}

/// All that flows from an instruction.
pub(crate) fn visit(known: &Known, state: &mut State, spot: Spot) -> bool
    requires state { IsState known.now state.old }
    requires spot { IsSpot known.now spot }
    ensures { Turn known.now (IsVisited known.now spot.method.0 spot.index) state.old state.new result }
{
    if !state.is_live(known, spot) {
        return false;
    }
    visit_live(known, state, spot)
}
