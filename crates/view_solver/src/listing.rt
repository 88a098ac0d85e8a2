//! The violations of all lock fields, in the order of reports. One lock field is solved at a time, and of its solution the
//! statuses are kept at which callbacks end badly.
ghost use Rattle.std.specs.Prelude.{◌≡◌, ◌<◌, ℕ, ◌+◌, ◌*◌, IfOk, length, map};
ghost use Rattle.app_model.specs.Subject.{slot_count};
ghost use Rattle.flow_model.specs.Derived.{IsLeast};
ghost use Rattle.flow_model.specs.Policy.{AreViolations, IsDerivableViolation, none_given};
ghost use Rattle.flow_model.specs.Rules.{Rules};
ghost use Rattle.solution.specs.Facts.{HasPlaces, holds};
ghost use Rattle.solution.specs.Words.{IsMask};
ghost use Rattle.solver.specs.Turns.{AreFacts};
ghost use Rattle.view_solver.specs.Reported.{HasLeast, AreAllMasks, AreLockMasks, AreMasksTo, AreReported};

use crate::edges::component_count;
use crate::judging::{bad_ends, push_if};
use crate::solving::solve_lock;
use app_model::Subject;
use flow_model::Violation;
use ns_base::{ComponentNo, LockNo, OutOfMemory};
use solution::Solution;
use std::alloc::{AllocError, Global};

fn push_masks(
    subject: &Subject,
    lock: LockNo,
    solution: &Solution,
    masks: &mut Vec<u8>,
    component: ComponentNo,
) -> Result<(), AllocError>
    requires facts { AreFacts subject.now lock.0 solution.now }
    requires component { component.0 < length subject.now.list }
    requires masks { AreMasksTo subject.now lock.0 solution.now (8 * component.0) masks.old.items }
    ensures { IfOk result (λ done. AreMasksTo subject.now lock.0 solution.now (8 * (component.0 + 1)) masks.new.items) }
{
    for callback in 0..8u32 {
        masks.push(bad_ends(subject, lock, solution, component, callback))?;
    }
    Ok(())
}

// Of each component and callback the statuses at which it ends badly.
fn masks_of(
    alloc: Global,
    subject: &Subject,
    lock: LockNo,
    solution: &Solution,
) -> Result<Vec<u8>, AllocError>
    requires { AreFacts subject.now lock.0 solution.now }
    ensures { IfOk result (λ masks. AreMasksTo subject.now lock.0 solution.now (8 * length subject.now.list) masks.items) }
{
    let mut masks = Vec::new(alloc);
    for component in 0..component_count(subject) {
        push_masks(subject, lock, solution, &mut masks, ComponentNo(component))?;
    }
    Ok(masks)
}

/// Of each component and callback the statuses at which it ends badly, by the least solution for a lock field: eight masks a
/// component, one for each callback.
pub fn bad_masks(
    alloc: Global,
    subject: &Subject,
    lock: LockNo,
    solution: &Solution,
) -> Result<Vec<u8>, OutOfMemory>
    requires lock { lock.0 < slot_count subject.now }
    requires places { HasPlaces subject.now solution.now }
    requires least { IsLeast (Rules subject.now lock.0) none_given (holds solution.now) }
    ensures { IfOk result (λ masks. AreLockMasks subject.now lock.0 masks.items) }
{
    subject.told();
    match masks_of(alloc, subject, lock, solution) {
        Ok(masks) => Ok(masks),
        Err(AllocError) => Err(OutOfMemory),
    }
}

// One lock field's; its solution is let go then.
fn lock_masks(alloc: Global, subject: &Subject, lock: LockNo) -> Result<Vec<u8>, OutOfMemory>
    requires { lock.0 < slot_count subject.now }
    ensures { IfOk result (λ masks. AreLockMasks subject.now lock.0 masks.items) }
{
    let solution = solve_lock(alloc, subject, lock)?;
    bad_masks(alloc, subject, lock, &solution)
}

fn all_masks(alloc: Global, subject: &Subject) -> Result<Vec<Vec<u8>>, AllocError>
    ensures { IfOk result (λ all. AreAllMasks subject.now (slot_count subject.now) (map (λ masks. masks.items) all.items)) }
{
    let locks = subject.lock_count();
    let mut all = Vec::with_capacity(alloc, locks as usize)?;
    for lock in 0..locks {
        match lock_masks(alloc, subject, LockNo(lock)) {
            Ok(masks) => all.push(masks)?,
            Err(OutOfMemory) => return Err(AllocError),
        }
    }
    Ok(all)
}

// The statuses at which a callback ends badly for a lock field.
fn mask_at(
    subject: &Subject,
    all: &[Vec<u8>],
    component: ComponentNo,
    callback: u32,
    lock: LockNo,
) -> u8
    requires masks { AreAllMasks subject.now (slot_count subject.now) (map (λ masks. masks.items) all.now) }
    requires component { component.0 < length subject.now.list }
    requires callback { callback < 8 }
    requires lock { lock.0 < slot_count subject.now }
    ensures { IsMask (IsDerivableViolation subject.now lock.0 component.0 callback) result }
{
    let _ = subject;
    all[lock.0 as usize][8 * component.0 as usize + callback as usize]
}

fn list_lock(
    subject: &Subject,
    all: &[Vec<u8>],
    found: &mut Vec<Violation>,
    component: ComponentNo,
    callback: u32,
    lock: LockNo,
) -> Result<(), AllocError>
    requires masks { AreAllMasks subject.now (slot_count subject.now) (map (λ masks. masks.items) all.now) }
    requires component { component.0 < length subject.now.list }
    requires callback { callback < 8 }
    requires lock { lock.0 < slot_count subject.now }
    requires reported { AreReported subject.now (4096 * component.0 + 512 * callback + 8 * lock.0) found.old.items }
    ensures { IfOk result (λ done. AreReported subject.now (4096 * component.0 + 512 * callback + 8 * (lock.0 + 1)) found.new.items) }
{
    subject.told();
    let mask = mask_at(subject, all, component, callback, lock);
    for status in 0..8u8 {
        let violation = Violation {
            component: component.0,
            callback,
            lock: lock.0,
            status,
        };
        push_if(found, mask, violation)?;
    }
    Ok(())
}

fn list_callback(
    subject: &Subject,
    all: &[Vec<u8>],
    found: &mut Vec<Violation>,
    component: ComponentNo,
    callback: u32,
) -> Result<(), AllocError>
    requires masks { AreAllMasks subject.now (slot_count subject.now) (map (λ masks. masks.items) all.now) }
    requires component { component.0 < length subject.now.list }
    requires callback { callback < 8 }
    requires reported { AreReported subject.now (4096 * component.0 + 512 * callback) found.old.items }
    ensures { IfOk result (λ done. AreReported subject.now (4096 * component.0 + 512 * (callback + 1)) found.new.items) }
{
    subject.told();
    for lock in 0..subject.lock_count() {
        list_lock(subject, all, found, component, callback, LockNo(lock))?;
    }
    Ok(())
}

fn list_component(
    subject: &Subject,
    all: &[Vec<u8>],
    found: &mut Vec<Violation>,
    component: ComponentNo,
) -> Result<(), AllocError>
    requires masks { AreAllMasks subject.now (slot_count subject.now) (map (λ masks. masks.items) all.now) }
    requires component { component.0 < length subject.now.list }
    requires reported { AreReported subject.now (4096 * component.0) found.old.items }
    ensures { IfOk result (λ done. AreReported subject.now (4096 * (component.0 + 1)) found.new.items) }
{
    for callback in 0..8u32 {
        list_callback(subject, all, found, component, callback)?;
    }
    Ok(())
}

fn list_all(alloc: Global, subject: &Subject, all: &[Vec<u8>]) -> Result<Vec<Violation>, AllocError>
    requires { AreAllMasks subject.now (slot_count subject.now) (map (λ masks. masks.items) all.now) }
    ensures { IfOk result (λ found. AreReported subject.now (4096 * length subject.now.list) found.items) }
{
    let mut found = Vec::new(alloc);
    for component in 0..component_count(subject) {
        list_component(subject, all, &mut found, ComponentNo(component))?;
    }
    Ok(found)
}

/// The violations that the flow rules derive for a subject, in the order of reports: component, callback, lock, status.
/// `all` has the masks of each lock field by its least solution, as `bad_masks` gives them.
pub fn list_violations(
    alloc: Global,
    subject: &Subject,
    all: &[Vec<u8>],
) -> Result<Vec<Violation>, OutOfMemory>
    requires { AreAllMasks subject.now (slot_count subject.now) (map (λ masks. masks.items) all.now) }
    ensures exact { IfOk result (λ found. AreViolations subject.now found.items) }
    ensures least { (l : ℕ) → l < slot_count subject.now → HasLeast subject.now l }
{
    subject.told();
    match list_all(alloc, subject, all) {
        Ok(found) => Ok(found),
        Err(AllocError) => Err(OutOfMemory),
    }
}

/// The same, where nothing is solved yet: there is a least solution for each lock field, which is let go.
pub fn all_violations(alloc: Global, subject: &Subject) -> Result<Vec<Violation>, OutOfMemory>
    ensures exact { IfOk result (λ found. AreViolations subject.now found.items) }
    ensures least { IfOk result (λ found. (l : ℕ) → l < slot_count subject.now → HasLeast subject.now l) }
{
    match all_masks(alloc, subject) {
        Ok(all) => list_violations(alloc, subject, &all),
        Err(AllocError) => Err(OutOfMemory),
    }
}
