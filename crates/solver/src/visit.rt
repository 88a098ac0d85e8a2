//! All that follows from the facts of an instruction.
ghost use Rattle.std.specs.Prelude.{◌≡◌, Some};
ghost use Rattle.app_model.specs.Words.{successor_at};
ghost use Rattle.solver.specs.Turns.{Step, LastingStep, Lasting, HasPlace, Every};
ghost use Rattle.solver.specs.Visits.{IsHere, SuccessorPassed, Returned, LedOn, AreLed, Nears, IsVisited};

use crate::ask::ask_passes;
use crate::calls::call_all;
use crate::task::{Site, Task, Way};
use crate::throws::throw_own;
use flow_model::Rows;
use solution::{Solution, all_of, join, without};

fn pass_to<R: Rows>(
    task: &Task,
    rows: &mut R,
    solution: &mut Solution,
    site: Site,
    word: u64,
    way: Way,
) -> bool
    requires here { IsHere task.now.subject.now task.now.lock.0 solution.old site.method.0 site.index word }
    requires way { successor_at task.now.subject.now.app site.method.0 site.index way.number ≡ Some way.to }
    ensures { LastingStep task.now.subject.now task.now.lock.0 (SuccessorPassed task.now.subject.now task.now.lock.0 site.method.0 site.index word way.number) (R.masks rows.old) (R.masks rows.new) solution.old solution.new result }
{
    let masks = ask_passes(task, rows, site, way.number, all_of(word));
    solution.join_at(site.method, way.to, join(word, masks))
}

fn pass_on<R: Rows>(
    task: &Task,
    rows: &mut R,
    solution: &mut Solution,
    site: Site,
    word: u64,
) -> bool
    requires { IsHere task.now.subject.now task.now.lock.0 solution.old site.method.0 site.index word }
    ensures { LastingStep task.now.subject.now task.now.lock.0 (Every (SuccessorPassed task.now.subject.now task.now.lock.0 site.method.0 site.index word)) (R.masks rows.old) (R.masks rows.new) solution.old solution.new result }
{
    let mut changed = false;
    for number in 0..u32::MAX {
        let Some(to) = task.successor(site, number) else {
            return changed;
        };
        changed |= pass_to(task, rows, solution, site, word, Way { number, to });
    }
    changed
}

fn give_back(task: &Task, solution: &mut Solution, site: Site, word: u64) -> bool
    requires { IsHere task.now.subject.now task.now.lock.0 solution.old site.method.0 site.index word }
    ensures { Lasting task.now.subject.now task.now.lock.0 (Returned task.now.subject.now site.method.0 site.index word) solution.old solution.new result }
{
    if !task.returns(site) {
        return false;
    }
    solution.join_ret(site.method, word)
}

// All but its calls.
fn lead_on<R: Rows>(
    task: &Task,
    rows: &mut R,
    solution: &mut Solution,
    site: Site,
    word: u64,
) -> bool
    requires { IsHere task.now.subject.now task.now.lock.0 solution.old site.method.0 site.index word }
    ensures { LastingStep task.now.subject.now task.now.lock.0 (LedOn task.now.subject.now task.now.lock.0 site.method.0 site.index word) (R.masks rows.old) (R.masks rows.new) solution.old solution.new result }
{
    let passed = pass_on(task, rows, solution, site, word);
    let threw = throw_own(task, rows, solution, site, word);
    let returned = give_back(task, solution, site, word);
    passed | threw | returned
}

// The facts of a word that were not led on.
fn lead_rest<R: Rows>(
    task: &Task,
    rows: &mut R,
    solution: &mut Solution,
    led: &Solution,
    site: Site,
    word: u64,
) -> bool
    requires here { IsHere task.now.subject.now task.now.lock.0 solution.old site.method.0 site.index word }
    requires led { AreLed task.now.subject.now task.now.lock.0 (R.masks rows.old) led.now solution.old }
    ensures { LastingStep task.now.subject.now task.now.lock.0 (LedOn task.now.subject.now task.now.lock.0 site.method.0 site.index word) (R.masks rows.old) (R.masks rows.new) solution.old solution.new result }
{
    let rest = without(word, led.at_word(site.method, site.index));
    if rest == 0 {
        return false;
    }
    lead_on(task, rows, solution, site, rest)
}

/// Applies the rules from an instruction. What was led on before is not asked again.
pub fn visit<R: Rows>(
    task: &Task,
    rows: &mut R,
    solution: &mut Solution,
    led: &Solution,
    site: Site,
) -> bool
    requires place { HasPlace task.now.subject.now task.now.lock.0 solution.old site.method.0 site.index }
    requires led { AreLed task.now.subject.now task.now.lock.0 (R.masks rows.old) led.now solution.old }
    ensures { Step task.now.subject.now task.now.lock.0 (IsVisited task.now.subject.now task.now.lock.0 site.method.0 site.index) (R.masks rows.old) (R.masks rows.new) solution.old solution.new result }
{
    let word = solution.at_word(site.method, site.index);
    if word == 0 {
        return false;
    }
    let passed = lead_rest(task, rows, solution, led, site, word);
    let called = call_all(task, solution, site, word);
    passed | called
}

/// Leads on what is new at an instruction, and tells whether a fact came.
pub fn lead_new<R: Rows>(
    task: &Task,
    rows: &mut R,
    solution: &mut Solution,
    led: &mut Solution,
    site: Site,
) -> bool
    requires place { HasPlace task.now.subject.now task.now.lock.0 solution.old site.method.0 site.index }
    requires led { AreLed task.now.subject.now task.now.lock.0 (R.masks rows.old) led.old solution.old }
    ensures { Nears task.now.subject.now task.now.lock.0 (R.masks rows.old) (R.masks rows.new) solution.old solution.new led.new }
{
    let word = solution.at_word(site.method, site.index);
    let fresh = without(word, led.at_word(site.method, site.index));
    if fresh == 0 {
        return false;
    }
    let passed = lead_on(task, rows, solution, site, fresh);
    let called = call_all(task, solution, site, fresh);
    led.join_at(site.method, site.index, fresh);
    passed | called
}
