//! Sweeps over all instructions, until one adds nothing.
ghost use Rattle.std.specs.Prelude.{◌≡◌, ◌<◌, ◌≤◌, true, length, OnOk, [], ◌∷◌};
ghost use Rattle.app_model.specs.Facts.{Fact};
ghost use Rattle.app_model.specs.Subject.{slot_count};
ghost use Rattle.flow_model.specs.Derived.{Derived, IsLeast};
ghost use Rattle.flow_model.specs.Rules.{Inside};
ghost use Rattle.solution.specs.Facts.{holds, facts_room, HasPlaces};
ghost use Rattle.solver.specs.Turns.{Step, AreFacts, Grown};
ghost use Rattle.solver.specs.Visits.{MethodVisited, AllVisited, AreLed};

use crate::agenda::Agenda;
use crate::approach::{Worklist, list_new, work_off};
use crate::task::{Site, Task};
use crate::visit::visit;
use app_model::Subject;
use flow_model::Rows;
use ns_base::{LockNo, MethodNo, OutOfMemory};
use solution::Solution;
use std::alloc::{AllocError, Global};

fn visit_method<R: Rows>(
    task: &Task,
    rows: &mut R,
    solution: &mut Solution,
    led: &Solution,
    method: MethodNo,
) -> bool
    requires facts { AreFacts task.now.subject.now task.now.lock.0 solution.old }
    requires method { method.0 < length task.now.subject.now.app.methods }
    requires led { AreLed task.now.subject.now task.now.lock.0 (R.masks rows.old) led.now solution.old }
    ensures { Step task.now.subject.now task.now.lock.0 (MethodVisited task.now.subject.now task.now.lock.0 method.0) (R.masks rows.old) (R.masks rows.new) solution.old solution.new result }
{
    if !task.subject.reaches(method) {
        return false;
    }
    let mut changed = false;
    for index in 0..task.code_len(method) {
        changed |= visit(task, rows, solution, led, Site { method, index });
    }
    changed
}

// All methods.
fn rise<R: Rows>(task: &Task, rows: &mut R, solution: &mut Solution, led: &Solution) -> bool
    requires facts { AreFacts task.now.subject.now task.now.lock.0 solution.old }
    requires led { AreLed task.now.subject.now task.now.lock.0 (R.masks rows.old) led.now solution.old }
    ensures { Step task.now.subject.now task.now.lock.0 (AllVisited task.now.subject.now task.now.lock.0) (R.masks rows.old) (R.masks rows.new) solution.old solution.new result }
{
    let mut changed = false;
    for method in 0..task.method_count() {
        changed |= visit_method(task, rows, solution, led, MethodNo(method));
    }
    changed
}

// The list first. Then a sweep that adds nothing shows that nothing is missing.
fn sweep_all<R: Rows>(
    task: &Task,
    rows: &mut R,
    solution: &mut Solution,
    led: &mut Solution,
    agenda: &mut Agenda,
) -> Result<(), AllocError>
    requires facts { AreFacts task.now.subject.now task.now.lock.0 solution.old }
    requires led { AreLed task.now.subject.now task.now.lock.0 (R.masks rows.old) led.old solution.old }
    ensures least { OnOk result (IsLeast (Inside task.now.subject.now task.now.lock.0 (R.masks rows.old task.now.subject.now task.now.lock.0)) (holds solution.old) (holds solution.new)) }
    ensures kept { Grown solution.old solution.new }
    ensures sound { (f : Fact) → holds solution.new f ≡ true → Derived (Inside task.now.subject.now task.now.lock.0 (R.masks rows.old task.now.subject.now task.now.lock.0)) (holds solution.old) (f ∷ []) }
    ensures places { HasPlaces task.now.subject.now solution.new }
    ensures room { facts_room solution.new ≤ facts_room solution.old }
    ensures rows { R.masks rows.new ≡ R.masks rows.old }
    ensures led { AreLed task.now.subject.now task.now.lock.0 (R.masks rows.new) led.new solution.new }
{
    let mut changed = true;
    while changed {
        list_new(task, solution, led, agenda, u32::MAX)?;
        work_off(task, rows, solution, led, agenda)?;
        changed = rise(task, rows, solution, led);
    }
    Ok(())
}

/// Adds to the facts all that the rules inside callbacks derive from them. After want of memory the old facts are there,
/// and every fact is derived from them.
pub fn settle<R: Rows>(
    task: &Task,
    rows: &mut R,
    solution: &mut Solution,
    worklist: &mut Worklist,
) -> Result<(), OutOfMemory>
    requires facts { AreFacts task.now.subject.now task.now.lock.0 solution.old }
    requires led { AreLed task.now.subject.now task.now.lock.0 (R.masks rows.old) worklist.old solution.old }
    ensures least { OnOk result (IsLeast (Inside task.now.subject.now task.now.lock.0 (R.masks rows.old task.now.subject.now task.now.lock.0)) (holds solution.old) (holds solution.new)) }
    ensures kept { Grown solution.old solution.new }
    ensures sound { (f : Fact) → holds solution.new f ≡ true → Derived (Inside task.now.subject.now task.now.lock.0 (R.masks rows.old task.now.subject.now task.now.lock.0)) (holds solution.old) (f ∷ []) }
    ensures places { HasPlaces task.now.subject.now solution.new }
    ensures room { facts_room solution.new ≤ facts_room solution.old }
    ensures rows { R.masks rows.new ≡ R.masks rows.old }
    ensures led { AreLed task.now.subject.now task.now.lock.0 (R.masks rows.new) worklist.new solution.new }
{
    match sweep_all(
        task,
        rows,
        solution,
        &mut worklist.led,
        &mut worklist.agenda,
    ) {
        Ok(()) => Ok(()),
        Err(AllocError) => Err(OutOfMemory),
    }
}

/// Adds to the facts all that the rules inside callbacks derive from them: I1 to I3 and C1 to C3. After want of memory the
/// old facts are there, and every fact is derived from them.
pub fn solve_calls<R: Rows>(
    alloc: Global,
    subject: &Subject,
    lock: LockNo,
    solution: &mut Solution,
    rows: &mut R,
) -> Result<(), OutOfMemory>
    requires lock { lock.0 < slot_count subject.now }
    requires places { HasPlaces subject.now solution.old }
    ensures least { OnOk result (IsLeast (Inside subject.now lock.0 (R.masks rows.old subject.now lock.0)) (holds solution.old) (holds solution.new)) }
    ensures kept { (f : Fact) → holds solution.old f ≡ true → holds solution.new f ≡ true }
    ensures sound { (f : Fact) → holds solution.new f ≡ true → Derived (Inside subject.now lock.0 (R.masks rows.old subject.now lock.0)) (holds solution.old) (f ∷ []) }
    ensures places { HasPlaces subject.now solution.new }
    ensures room { facts_room solution.new ≤ facts_room solution.old }
    ensures rows { R.masks rows.new ≡ R.masks rows.old }
{
    subject.told();
    let mut worklist = Worklist::new(alloc, subject)?;
    settle(&Task { subject, lock }, rows, solution, &mut worklist)
}
