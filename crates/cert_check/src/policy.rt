//! The first violation of the exit policy.
ghost use Rattle.std.specs.Prelude.{◌≡◌, ◌<◌, ℕ, length, slice_get};
ghost use Rattle.app_model.specs.Subject.{slot_count};
ghost use Rattle.solution.specs.Words.{IsMask};
ghost use Rattle.cert_check.specs.Ends.{LeadsFrom, Leads, EndsBy, Ends, Violates, IsFirstStatus, IsFirstCallback, IsFirstOf, IsFirstUnmet, earlier};
ghost use Rattle.cert_facts.specs.Shape.{FitsAt};

use app_model::{Edge, Subject};
use cert_facts::{Task, carried};
use certificate::LockPart;
use flow_model::{Violation, has_status, held_test};
use ns_base::{ComponentNo, LockNo};

fn lead_one(task: &Task, component: ComponentNo, edge: Edge, seen: u8, status: u8) -> u8
    requires component { component.0 < length task.now.subject.list }
    requires status { status < 8 }
    ensures { IsMask (LeadsFrom task.now component.0 edge seen status) result }
{
    if has_status(seen, status as usize) {
        carried(task, component, edge, status)
    } else {
        0
    }
}

fn lead(task: &Task, component: ComponentNo, edge: Edge) -> u8
    requires { component.0 < length task.now.subject.list }
    ensures { IsMask (Leads task.now component.0 edge) result }
{
    let seen = task.view(component, edge.from);
    let mut mask = 0;
    for status in 0..8u8 {
        mask |= lead_one(task, component, edge, seen, status);
    }
    mask
}

fn edge_ends(task: &Task, component: ComponentNo, callback: u32, number: u32) -> u8
    requires { component.0 < length task.now.subject.list }
    ensures { IsMask (EndsBy task.now component.0 callback number) result }
{
    let Some(edge) = task.edge(component, number) else {
        return 0;
    };
    if edge.callback as u32 != callback {
        return 0;
    }
    lead(task, component, edge)
}

// The statuses at which a callback can end.
fn ends(task: &Task, component: ComponentNo, callback: u32) -> u8
    requires { component.0 < length task.now.subject.list }
    ensures { IsMask (Ends task.now component.0 callback) result }
{
    let mut mask = 0;
    for number in 0..task.edge_count(component) {
        mask |= edge_ends(task, component, callback, number);
    }
    mask
}

fn violations(task: &Task, component: ComponentNo, callback: u32) -> u8
    requires component { component.0 < length task.now.subject.list }
    requires callback { callback < 8 }
    ensures { IsMask (Violates task.now component.0 callback) result }
{
    task.told();
    if !task.subject().answers_for(component, task.lock()) {
        return 0;
    }
    if !has_status(task.exits(component), callback as usize) {
        return 0;
    }
    held_test(ends(task, component, callback)).nonzero
}

fn first_status(task: &Task, component: ComponentNo, callback: u32) -> Option<u8>
    requires component { component.0 < length task.now.subject.list }
    requires callback { callback < 8 }
    ensures { IsFirstStatus task.now component.0 callback result }
{
    let mask = violations(task, component, callback);
    for status in 0..8u8 {
        if has_status(mask, status as usize) {
            return Some(status);
        }
    }
    None
}

fn first_callback(task: &Task, component: ComponentNo) -> Option<Violation>
    requires { component.0 < length task.now.subject.list }
    ensures { IsFirstCallback task.now component.0 result }
{
    task.told();
    for callback in 0..8u32 {
        if let Some(status) = first_status(task, component, callback) {
            return Some(Violation {
                component: component.0,
                callback,
                lock: task.lock().0,
                status,
            });
        }
    }
    None
}

fn first_of(task: &Task) -> Option<Violation>
    ensures { IsFirstOf task.now result }
{
    task.told();
    for component in 0..task.component_count() {
        let found = first_callback(task, ComponentNo(component));
        if found.is_some() {
            return found;
        }
    }
    None
}

// The earlier one; the first where they stand at the same component and callback.
fn earlier(first: Option<Violation>, second: Option<Violation>) -> Option<Violation>
    ensures { result ≡ earlier first second }
{
    let Some(v) = first else {
        return second;
    };
    let Some(w) = second else {
        return first;
    };
    if w.component < v.component || (w.component == v.component && w.callback < v.callback) {
        second
    } else {
        first
    }
}

/// The first violation, over all lock fields.
pub fn first_unmet(subject: &Subject, parts: &[LockPart]) -> Option<Violation>
    requires { (l : ℕ) → FitsAt subject.now l (slice_get parts.now l) }
    ensures { IsFirstUnmet subject.now parts.now (slot_count subject.now) result }
{
    subject.told();
    let mut first = None;
    for lock in 0..subject.lock_count() {
        let task = Task::new(subject, LockNo(lock), &parts[lock as usize]);
        first = earlier(first, first_of(&task));
    }
    first
}
