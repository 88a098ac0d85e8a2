//! The rules between callbacks, and the starts of callbacks: whether one leads out of the facts at a place.
ghost use Rattle.std.specs.Prelude.{◌≡◌, ◌↔◌, ◌<◌, ◌*◌, ℕ, true, IsTrue, length};
ghost use Rattle.app_model.specs.Facts.{View};
ghost use Rattle.app_model.specs.Masks.{in_mask};
ghost use Rattle.app_model.specs.Subject.{IsEnterable};
ghost use Rattle.cert_facts.specs.Cases.{set_of};
ghost use Rattle.cert_check.specs.Tests.{Misses};
ghost use Rattle.cert_facts.specs.Moves.{AreMoves};
ghost use Rattle.cert_check.specs.EdgeTests.{MovesOut, StartsOut, EdgeOut, EdgesOut, WatchesOut, BeginsOut, IsOutBetween};

use crate::inside::misses;
use crate::verdict::Rule;
use app_model::Edge;
use cert_facts::{Entered, Task, carried, enter};
use flow_model::has_status;
use ns_base::{ComponentNo, MethodNo};

fn begins_out(task: &Task, component: ComponentNo, state: u8, number: u32) -> bool
    requires { component.0 < length task.now.subject.list }
    ensures { IsTrue result ↔ BeginsOut task.now component.0 state number }
{
    state == 0 && number == 0 && !has_status(task.view(component, 0), 0)
}

fn moves_out(task: &Task, component: ComponentNo, edge: Edge, status: u8) -> bool
    requires component { component.0 < length task.now.subject.list }
    requires status { status < 8 }
    ensures { IsTrue result ↔ MovesOut task.now component.0 edge status }
{
    misses(
        carried(task, component, edge, status),
        task.view(component, edge.to),
    )
}

fn starts_out(task: &Task, component: ComponentNo, edge: Edge, method: MethodNo, status: u8) -> bool
    requires method { IsEnterable task.now.subject method.0 }
    requires status { status < 8 }
    ensures { IsTrue result ↔ StartsOut task.now component.0 edge method.0 status }
{
    let entry = enter(task, component, edge, status);
    !has_status(Entered::new(task, method, entry).before(0), entry as usize)
}

// By an edge, from one status. This alone looks at the rule.
fn edge_out(rule: Rule, task: &Task, component: ComponentNo, edge: Edge, status: u8) -> bool
    requires component { component.0 < length task.now.subject.list }
    requires status { status < 8 }
    ensures { IsTrue result ↔ EdgeOut rule task.now component.0 edge status }
{
    let method = task.subject().callback(component, edge.callback as u32);
    match (rule, method) {
        (Rule::V2, None) | (Rule::V4, Some(_)) => moves_out(task, component, edge, status),
        (Rule::V3, Some(method)) => starts_out(task, component, edge, method, status),
        _ => false,
    }
}

fn seen_out(
    rule: Rule,
    task: &Task,
    component: ComponentNo,
    edge: Edge,
    seen: u8,
    status: u8,
) -> bool
    requires component { component.0 < length task.now.subject.list }
    requires status { status < 8 }
    ensures { IsTrue result ↔ ((in_mask seen status ≡ true) × EdgeOut rule task.now component.0 edge status) }
{
    has_status(seen, status as usize) && edge_out(rule, task, component, edge, status)
}

fn edges_out(rule: Rule, task: &Task, component: ComponentNo, state: u8, number: u32) -> bool
    requires { component.0 < length task.now.subject.list }
    ensures { IsTrue result ↔ EdgesOut rule task.now component.0 state number }
{
    let Some(edge) = task.edge(component, number) else {
        return false;
    };
    if edge.from != state {
        return false;
    }
    let seen = task.view(component, state);
    for status in 0..8u8 {
        if seen_out(rule, task, component, edge, seen, status) {
            return true;
        }
    }
    false
}

fn watched_out(seen: u8, moved: u8, status: u8) -> bool
    requires { status < 8 }
    ensures { IsTrue result ↔ ((in_mask seen status ≡ true) × Misses (in_mask moved) (in_mask seen)) }
{
    has_status(seen, status as usize) && misses(moved, seen)
}

fn watches_out(task: &Task, moves: &[u8], component: ComponentNo, state: u8, mover: u32) -> bool
    requires { AreMoves task.now (8 * length task.now.subject.list) moves.now }
    ensures { IsTrue result ↔ WatchesOut task.now component.0 state mover }
{
    if mover >= task.component_count() {
        return false;
    }
    if mover == component.0 {
        return false;
    }
    let seen = task.view(component, state);
    for status in 0..8u8 {
        if watched_out(seen, moves[8 * mover as usize + status as usize], status) {
            return true;
        }
    }
    false
}

/// Whether the rule leads out at a place: a component, its state, and an edge or the moving component.
pub fn is_out_between(
    rule: Rule,
    task: &Task,
    moves: &[u8],
    component: ComponentNo,
    state: u8,
    number: u32,
) -> bool
    requires moves { AreMoves task.now (8 * length task.now.subject.list) moves.now }
    requires component { component.0 < length task.now.subject.list }
    ensures { IsTrue result ↔ IsOutBetween rule task.now component.0 state number }
{
    match rule {
        Rule::V1 => begins_out(task, component, state, number),
        Rule::V2 | Rule::V3 | Rule::V4 => edges_out(rule, task, component, state, number),
        Rule::V5 => watches_out(task, moves, component, state, number),
        Rule::I1 | Rule::I2 | Rule::I3 | Rule::C1 | Rule::C2 | Rule::C3 => false,
    }
}
