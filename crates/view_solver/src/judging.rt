//! The violations of the exit policy.
ghost use Rattle.std.specs.Prelude.{◌≡◌, ◌<◌, ◌+◌, ◌*◌, ◌++◌, List, IfOk, length};
ghost use Rattle.app_model.specs.Components.{exits_at};
ghost use Rattle.app_model.specs.Facts.{Fact};
ghost use Rattle.app_model.specs.Masks.{in_mask};
ghost use Rattle.app_model.specs.Subject.{slot_count};
ghost use Rattle.flow_model.specs.Derived.{Derived, HasAll, IsLeast};
ghost use Rattle.flow_model.specs.Policy.{none_given};
ghost use Rattle.flow_model.specs.Rules.{Rules};
ghost use Rattle.solution.specs.Facts.{holds, HasPlaces};
ghost use Rattle.solution.specs.Words.{IsMask};
ghost use Rattle.solver.specs.Turns.{AreFacts};
ghost use Rattle.view_solver.specs.Judged.{AreViolationsBy, AreListed, EndsBy, Ends, Violates, one_if};

use crate::carrying::carry_word;
use crate::edges::{component_count, edge_of, edges_of};
use app_model::Subject;
use flow_model::{Violation, has_status, held_test};
use ns_base::{ComponentNo, LockNo, OutOfMemory};
use solution::{Solution, lead};
use std::alloc::{AllocError, Global};

fn edge_ends(
    subject: &Subject,
    lock: LockNo,
    solution: &Solution,
    component: ComponentNo,
    callback: u32,
    number: u32,
) -> u8
    requires facts { AreFacts subject.now lock.0 solution.now }
    requires component { component.0 < length subject.now.list }
    ensures { IsMask (EndsBy subject.now lock.0 solution.now component.0 callback number) result }
{
    let Some(edge) = edge_of(subject, component, number) else {
        return 0;
    };
    if edge.callback as u32 != callback {
        return 0;
    }
    let seen = solution.view(component, edge.from);
    lead(seen, carry_word(subject, lock, solution, component, edge))
}

// The statuses at which a callback of a component can end.
fn ends(
    subject: &Subject,
    lock: LockNo,
    solution: &Solution,
    component: ComponentNo,
    callback: u32,
) -> u8
    requires facts { AreFacts subject.now lock.0 solution.now }
    requires component { component.0 < length subject.now.list }
    ensures { IsMask (Ends subject.now lock.0 solution.now component.0 callback) result }
{
    let mut mask = 0;
    for number in 0..edges_of(subject, component) {
        mask |= edge_ends(subject, lock, solution, component, callback, number);
    }
    mask
}

#[tactic(auto, unfolding(app_model::specs::Components::exits_at))]
fn exits(subject: &Subject, component: ComponentNo) -> u8
    requires { component.0 < length subject.now.list }
    ensures { result ≡ exits_at subject.now.list component.0 }
{
    subject.list.rows[component.0 as usize].exits
}

// The statuses at which a callback of a component ends badly.
pub fn bad_ends(
    subject: &Subject,
    lock: LockNo,
    solution: &Solution,
    component: ComponentNo,
    callback: u32,
) -> u8
    requires facts { AreFacts subject.now lock.0 solution.now }
    requires component { component.0 < length subject.now.list }
    requires callback { callback < 8 }
    ensures { IsMask (Violates subject.now lock.0 solution.now component.0 callback) result }
{
    if !subject.answers_for(component, lock) {
        return 0;
    }
    if !has_status(exits(subject, component), callback as usize) {
        return 0;
    }
    held_test(ends(subject, lock, solution, component, callback)).nonzero
}

pub fn push_if(found: &mut Vec<Violation>, mask: u8, violation: Violation) -> Result<(), AllocError>
    requires { violation.status < 8 }
    ensures { IfOk result (λ done. found.new.items ≡ found.old.items ++ one_if (in_mask mask violation.status) violation) }
{
    if has_status(mask, violation.status as usize) {
        found.push(violation)?;
    }
    Ok(())
}

fn list_callback(
    subject: &Subject,
    lock: LockNo,
    solution: &Solution,
    found: &mut Vec<Violation>,
    component: ComponentNo,
    callback: u32,
) -> Result<(), AllocError>
    requires facts { AreFacts subject.now lock.0 solution.now }
    requires component { component.0 < length subject.now.list }
    requires callback { callback < 8 }
    requires listed { AreListed subject.now lock.0 solution.now (64 * component.0 + 8 * callback) found.old.items }
    ensures { IfOk result (λ done. AreListed subject.now lock.0 solution.now (64 * component.0 + 8 * (callback + 1)) found.new.items) }
{
    let mask = bad_ends(subject, lock, solution, component, callback);
    for status in 0..8u8 {
        let violation = Violation {
            component: component.0,
            callback,
            lock: lock.0,
            status,
        };
        push_if(found, mask, violation)?;
    }
    Ok(())
}

fn list_component(
    subject: &Subject,
    lock: LockNo,
    solution: &Solution,
    found: &mut Vec<Violation>,
    component: ComponentNo,
) -> Result<(), AllocError>
    requires facts { AreFacts subject.now lock.0 solution.now }
    requires component { component.0 < length subject.now.list }
    requires listed { AreListed subject.now lock.0 solution.now (64 * component.0) found.old.items }
    ensures { IfOk result (λ done. AreListed subject.now lock.0 solution.now (64 * (component.0 + 1)) found.new.items) }
{
    for callback in 0..8u32 {
        list_callback(subject, lock, solution, found, component, callback)?;
    }
    Ok(())
}

fn list_all(
    alloc: Global,
    subject: &Subject,
    lock: LockNo,
    solution: &Solution,
) -> Result<Vec<Violation>, AllocError>
    requires { AreFacts subject.now lock.0 solution.now }
    ensures { IfOk result (λ found. AreListed subject.now lock.0 solution.now (64 * length subject.now.list) found.items) }
{
    let mut found = Vec::new(alloc);
    for component in 0..component_count(subject) {
        list_component(subject, lock, solution, &mut found, ComponentNo(component))?;
    }
    Ok(found)
}

/// The violations for a lock, in order of component, callback and status, where the facts of a solution hold. With the least
/// solution of the status rules these are the derivable ones.
pub fn violations(
    alloc: Global,
    subject: &Subject,
    lock: LockNo,
    solution: &Solution,
) -> Result<Vec<Violation>, OutOfMemory>
    requires lock { lock.0 < slot_count subject.now }
    requires places { HasPlaces subject.now solution.now }
    ensures exact { IfOk result (λ found. AreViolationsBy subject.now lock.0 (HasAll (holds solution.now)) found.items) }
    ensures derivable { IsLeast (Rules subject.now lock.0) none_given (holds solution.now) → IfOk result (λ found. AreViolationsBy subject.now lock.0 (Derived (Rules subject.now lock.0) none_given) found.items) }
{
    subject.told();
    match list_all(alloc, subject, lock, solution) {
        Ok(found) => Ok(found),
        Err(AllocError) => Err(OutOfMemory),
    }
}
