//! What the calls of an instruction lead to.
ghost use Rattle.std.specs.Prelude.{◌≡◌, Contains};
ghost use Rattle.app_model.specs.Subject.{callees_at};
ghost use Rattle.solver.specs.Turns.{Still};
ghost use Rattle.solver.specs.Visits.{IsHere, IsOpenAt, Entered, CameBack, ThrewBack, IsCalled, CallsDone, EachCalled};

use crate::ask::open_mask;
use crate::task::{Site, Task};
use crate::throws::throw_all;
use ns_base::MethodNo;
use solution::{Solution, all_of, itself, join};

fn enter(task: &Task, solution: &mut Solution, site: Site, opened: u64, callee: MethodNo) -> bool
    requires called { Contains (callees_at task.now.subject.now site.method.0 site.index) callee }
    requires opened { IsOpenAt task.now.subject.now task.now.lock.0 solution.old site.method.0 site.index opened }
    ensures { Still task.now.subject.now task.now.lock.0 (Entered opened callee.0) solution.old solution.new result }
{
    solution.join_at(callee, 0, itself(all_of(opened)))
}

fn come_back(
    task: &Task,
    solution: &mut Solution,
    site: Site,
    opened: u64,
    callee: MethodNo,
) -> bool
    requires called { Contains (callees_at task.now.subject.now site.method.0 site.index) callee }
    requires opened { IsOpenAt task.now.subject.now task.now.lock.0 solution.old site.method.0 site.index opened }
    ensures { Still task.now.subject.now task.now.lock.0 (CameBack task.now.subject.now site.method.0 site.index opened callee.0) solution.old solution.new result }
{
    let Some(to) = task.successor(site, 0) else {
        return false;
    };
    let ret = solution.ret_word(callee);
    solution.join_at(site.method, to, join(opened, ret))
}

fn throw_back(
    task: &Task,
    solution: &mut Solution,
    site: Site,
    opened: u64,
    callee: MethodNo,
) -> bool
    requires called { Contains (callees_at task.now.subject.now site.method.0 site.index) callee }
    requires opened { IsOpenAt task.now.subject.now task.now.lock.0 solution.old site.method.0 site.index opened }
    ensures { Still task.now.subject.now task.now.lock.0 (ThrewBack task.now.subject.now site.method.0 site.index opened callee.0) solution.old solution.new result }
{
    let exc = solution.exc_word(callee);
    throw_all(task, solution, site, join(opened, exc))
}

fn call(task: &Task, solution: &mut Solution, site: Site, opened: u64, callee: MethodNo) -> bool
    requires called { Contains (callees_at task.now.subject.now site.method.0 site.index) callee }
    requires opened { IsOpenAt task.now.subject.now task.now.lock.0 solution.old site.method.0 site.index opened }
    ensures { Still task.now.subject.now task.now.lock.0 (IsCalled task.now.subject.now site.method.0 site.index opened callee.0) solution.old solution.new result }
{
    let entered = enter(task, solution, site, opened, callee);
    let back = come_back(task, solution, site, opened, callee);
    let threw = throw_back(task, solution, site, opened, callee);
    entered | back | threw
}

fn call_each(
    task: &Task,
    solution: &mut Solution,
    site: Site,
    opened: u64,
    callees: &[MethodNo],
) -> bool
    requires callees { callees.now ≡ callees_at task.now.subject.now site.method.0 site.index }
    requires opened { IsOpenAt task.now.subject.now task.now.lock.0 solution.old site.method.0 site.index opened }
    ensures { Still task.now.subject.now task.now.lock.0 (EachCalled task.now.subject.now site.method.0 site.index opened) solution.old solution.new result }
{
    let mut changed = false;
    for number in 0..callees.len() {
        changed |= call(task, solution, site, opened, callees[number]);
    }
    changed
}

/// All callees, at the statuses at which the call is open.
pub fn call_all(task: &Task, solution: &mut Solution, site: Site, word: u64) -> bool
    requires { IsHere task.now.subject.now task.now.lock.0 solution.old site.method.0 site.index word }
    ensures { Still task.now.subject.now task.now.lock.0 (CallsDone task.now.subject.now task.now.lock.0 site.method.0 site.index word) solution.old solution.new result }
{
    let callees = task.callees(site);
    if callees.is_empty() {
        return false;
    }
    let opened = join(word, itself(open_mask(task, site, all_of(word))));
    call_each(task, solution, site, opened, callees)
}
