//! What is thrown at an instruction, to its handlers and out of the method.
ghost use Rattle.std.specs.Prelude.{◌≡◌, Some};
ghost use Rattle.app_model.specs.Words.{handler_at};
ghost use Rattle.solution.specs.Facts.{SameSize};
ghost use Rattle.solver.specs.Turns.{LastingStep, HasPlace, Every};
ghost use Rattle.solver.specs.Visits.{IsHere, WhereThrown, ThrownTo, ThrownOut, Thrown, OwnThrown};

use crate::ask::ask_throws;
use crate::task::{Site, Task, Way};
use flow_model::Rows;
use solution::{Solution, all_of, join};

fn throw_to(task: &Task, solution: &mut Solution, site: Site, thrown: u64, way: Way) -> bool
    requires place { HasPlace task.now.subject.now task.now.lock.0 solution.old site.method.0 site.index }
    requires way { handler_at task.now.subject.now.app site.method.0 site.index way.number ≡ Some way.to }
    ensures turn { WhereThrown task.now.subject.now task.now.lock.0 site.method.0 site.index thrown (ThrownTo task.now.subject.now site.method.0 site.index thrown way.number) solution.old solution.new result }
    ensures size { SameSize solution.old solution.new }
{
    solution.join_at(site.method, way.to, thrown)
}

fn throw_to_all(task: &Task, solution: &mut Solution, site: Site, thrown: u64) -> bool
    requires { HasPlace task.now.subject.now task.now.lock.0 solution.old site.method.0 site.index }
    ensures turn { WhereThrown task.now.subject.now task.now.lock.0 site.method.0 site.index thrown (Every (ThrownTo task.now.subject.now site.method.0 site.index thrown)) solution.old solution.new result }
    ensures size { SameSize solution.old solution.new }
{
    let mut changed = false;
    for number in 0..u32::MAX {
        let Some(to) = task.handler(site, number) else {
            return changed;
        };
        changed |= throw_to(task, solution, site, thrown, Way { number, to });
    }
    changed
}

fn throw_out(task: &Task, solution: &mut Solution, site: Site, thrown: u64) -> bool
    requires { HasPlace task.now.subject.now task.now.lock.0 solution.old site.method.0 site.index }
    ensures turn { WhereThrown task.now.subject.now task.now.lock.0 site.method.0 site.index thrown (ThrownOut task.now.subject.now site.method.0 site.index thrown) solution.old solution.new result }
    ensures size { SameSize solution.old solution.new }
{
    if !task.leaves(site) {
        return false;
    }
    solution.join_exc(site.method, thrown)
}

/// Throws with the statuses of a word.
pub fn throw_all(task: &Task, solution: &mut Solution, site: Site, thrown: u64) -> bool
    requires { HasPlace task.now.subject.now task.now.lock.0 solution.old site.method.0 site.index }
    ensures turn { WhereThrown task.now.subject.now task.now.lock.0 site.method.0 site.index thrown (Thrown task.now.subject.now site.method.0 site.index thrown) solution.old solution.new result }
    ensures size { SameSize solution.old solution.new }
{
    if thrown == 0 {
        return false;
    }
    let to = throw_to_all(task, solution, site, thrown);
    let out = throw_out(task, solution, site, thrown);
    to | out
}

/// What the instruction itself throws.
pub fn throw_own<R: Rows>(
    task: &Task,
    rows: &mut R,
    solution: &mut Solution,
    site: Site,
    word: u64,
) -> bool
    requires { IsHere task.now.subject.now task.now.lock.0 solution.old site.method.0 site.index word }
    ensures { LastingStep task.now.subject.now task.now.lock.0 (OwnThrown task.now.subject.now task.now.lock.0 site.method.0 site.index word) (R.masks rows.old) (R.masks rows.new) solution.old solution.new result }
{
    let masks = ask_throws(task, rows, site, all_of(word));
    throw_all(task, solution, site, join(word, masks))
}
