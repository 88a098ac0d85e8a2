//! Callbacks and what is between them, in turns, until nothing is new.
ghost use Rattle.std.specs.Prelude.{◌≡◌, ◌<◌, IfOk, OnOk};
ghost use Rattle.app_model.specs.Subject.{slot_count};
ghost use Rattle.flow_model.specs.Derived.{Either, IsLeast};
ghost use Rattle.flow_model.specs.Policy.{none_given};
ghost use Rattle.flow_model.specs.Rules.{Inner, Between, Carries, Rules};
ghost use Rattle.solution.specs.Facts.{holds, HasPlaces};
ghost use Rattle.solver.specs.Turns.{AreFacts, IsBelow, Keeps};
ghost use Rattle.solver.specs.Visits.{AreLed};
ghost use Rattle.view_solver.specs.Views.{Whole, WholeBy};

use crate::moving::move_all;
use app_model::Subject;
use flow_model::{Rows, StatusRows};
use ns_base::{LockNo, OutOfMemory};
use solution::Solution;
use solver::{Task, Worklist, approach_calls, settle};
use std::alloc::Global;

// What callbacks lead to and the moves between them, until nothing moves. It promises only that no fact is wrong, and which
// ones were led on.
fn approach_rounds<R: Rows>(
    task: &Task,
    rows: &mut R,
    solution: &mut Solution,
    worklist: &mut Worklist,
) -> Result<(), OutOfMemory>
    requires facts { AreFacts task.now.subject.now task.now.lock.0 solution.old }
    requires led { AreLed task.now.subject.now task.now.lock.0 (R.masks rows.old) worklist.old solution.old }
    ensures keeps { Keeps (WholeBy task.now.subject.now task.now.lock.0) (R.masks rows.old) (R.masks rows.new) solution.old solution.new }
    ensures led { AreLed task.now.subject.now task.now.lock.0 (R.masks rows.new) worklist.new solution.new }
{
    let mut changed = true;
    while changed {
        approach_calls(task, rows, solution, worklist)?;
        changed = move_all(task.subject, task.lock, solution);
    }
    Ok(())
}

fn solve_rounds<R: Rows>(
    task: &Task,
    rows: &mut R,
    solution: &mut Solution,
    worklist: &mut Worklist,
) -> Result<(), OutOfMemory>
    requires facts { AreFacts task.now.subject.now task.now.lock.0 solution.old }
    requires led { AreLed task.now.subject.now task.now.lock.0 (R.masks rows.old) worklist.old solution.old }
    requires below { IsBelow (WholeBy task.now.subject.now task.now.lock.0) (R.masks rows.old) none_given solution.old }
    ensures least { OnOk result (IsLeast (Whole task.now.subject.now task.now.lock.0 (R.masks rows.old task.now.subject.now task.now.lock.0)) none_given (holds solution.new)) }
    ensures places { HasPlaces task.now.subject.now solution.new }
    ensures rows { R.masks rows.new ≡ R.masks rows.old }
{
    let mut changed = true;
    while changed {
        approach_rounds(task, rows, solution, worklist)?;
        settle(task, rows, solution, worklist)?;
        changed = move_all(task.subject, task.lock, solution);
    }
    Ok(())
}

/// The least solution of the flow rules for a lock, with the masks of `rows`.
pub fn solve<R: Rows>(
    alloc: Global,
    subject: &Subject,
    lock: LockNo,
    rows: &mut R,
) -> Result<Solution, OutOfMemory>
    requires { lock.0 < slot_count subject.now }
    ensures least { IfOk result (λ solution. IsLeast (Either (Inner subject.now lock.0 (R.masks rows.old subject.now lock.0)) (Between subject.now (Carries subject.now lock.0))) none_given (holds solution)) }
    ensures places { IfOk result (λ solution. HasPlaces subject.now solution) }
    ensures rows { R.masks rows.new ≡ R.masks rows.old }
{
    subject.told();
    let mut solution = Solution::new(alloc, subject)?;
    let mut worklist = Worklist::new(alloc, subject)?;
    let task = Task { subject, lock };
    move_all(subject, lock, &mut solution);
    solve_rounds(&task, rows, &mut solution, &mut worklist)?;
    Ok(solution)
}

/// The least solution of the flow rules for a lock field, by the rules of statuses.
pub fn solve_lock(alloc: Global, subject: &Subject, lock: LockNo) -> Result<Solution, OutOfMemory>
    requires { lock.0 < slot_count subject.now }
    ensures least { IfOk result (λ solution. IsLeast (Rules subject.now lock.0) none_given (holds solution)) }
    ensures places { IfOk result (λ solution. HasPlaces subject.now solution) }
{
    solve(alloc, subject, lock, &mut StatusRows::new())
}
