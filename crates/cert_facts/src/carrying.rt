//! Where the edges of components lead the statuses.
ghost use Rattle.std.specs.Prelude.{◌≡◌, ◌<◌, ◌≤◌, ◌+◌, ◌*◌, ℕ, Some, length, IfSome};
ghost use Rattle.app_model.specs.Components.{edge_at};
ghost use Rattle.app_model.specs.declared.component.Edge.{Edge};
ghost use Rattle.flow_model.specs.Rules as rules;
ghost use Rattle.solution.specs.Words.{IsMask};
ghost use Rattle.cert_facts.specs.Moves.{Carried, MovesBy, Moves, AreMoves};

use crate::entered::Entered;
use crate::task::Task;
use app_model::Edge;
use flow_model::has_status;
use ns_base::ComponentNo;
use solution::single;

// Each status where an edge clears the field.
const RESET: [u8; 8] = [0, 0, 7, 7, 7, 0, 7, 7];

fn clears(task: &Task, component: ComponentNo, edge: Edge) -> bool
    ensures { result ≡ rules.clears task.now.subject component.0 edge task.now.lock }
{
    task.told();
    match task.subject().owner(task.lock()) {
        Some(owner) => edge.creates && owner.0 == component.0,
        None => false,
    }
}

/// The status at which an edge begins its callback.
pub fn enter(task: &Task, component: ComponentNo, edge: Edge, status: u8) -> u8
    requires { status < 8 }
    ensures entered { result ≡ rules.entered task.now.subject task.now.lock component.0 edge status }
    ensures status { result < 8 }
{
    if clears(task, component, edge) {
        RESET[status as usize]
    } else {
        status
    }
}

/// The statuses to which an edge carries one.
pub fn carried(task: &Task, component: ComponentNo, edge: Edge, status: u8) -> u8
    requires component { component.0 < length task.now.subject.list }
    requires status { status < 8 }
    ensures { IsMask (Carried task.now component.0 edge status) result }
{
    let entry = enter(task, component, edge, status);
    match task.subject().callback(component, edge.callback as u32) {
        Some(method) => Entered::new(task, method, entry).returned(),
        None => single(entry),
    }
}

fn edge_moves(task: &Task, component: ComponentNo, status: u8, number: u32) -> u8
    requires component { component.0 < length task.now.subject.list }
    requires status { status < 8 }
    ensures { IsMask (MovesBy task.now component.0 status number) result }
{
    let Some(edge) = task.edge(component, number) else {
        return 0;
    };
    if !has_status(task.view(component, edge.from), status as usize) {
        return 0;
    }
    carried(task, component, edge, status)
}

// The statuses to which the edges that are open to a component lead from one.
fn moves(task: &Task, component: ComponentNo, status: u8) -> u8
    requires component { component.0 < length task.now.subject.list }
    requires status { status < 8 }
    ensures { IsMask (Moves task.now component.0 status) result }
{
    let mut mask = 0;
    for number in 0..task.edge_count(component) {
        mask |= edge_moves(task, component, status, number);
    }
    mask
}

fn note_moves(task: &Task, masks: &mut [u8], component: ComponentNo)
    requires component { component.0 < length task.now.subject.list }
    requires moves { AreMoves task.now (8 * component.0) masks.old }
    ensures { AreMoves task.now (8 * (component.0 + 1)) masks.new }
{
    let first = 8 * component.0 as usize;
    for status in 0..8u8 {
        masks[first + status as usize] = moves(task, component, status);
    }
}

/// Fills in the moves of all components, a mask for each status.
pub fn note_all(task: &Task, masks: &mut [u8])
    requires { 8 * length task.now.subject.list ≤ length masks.old }
    ensures { AreMoves task.now (8 * length task.now.subject.list) masks.new }
{
    for component in 0..task.component_count() {
        note_moves(task, masks, ComponentNo(component));
    }
}
