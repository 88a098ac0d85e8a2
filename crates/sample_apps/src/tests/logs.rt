//! Logs of the least solutions of applications in scope: each fact has one line, or one view, and no more. With methods that call
//! each other no log is made in time but by a list.
ghost use Rattle.std.specs.Prelude.{◌<◌, length};
ghost use Rattle.solution.specs.Facts.{HasPlaces};

use super::{read_app, samples};
use crate::subject_of;
use app_model::Subject;
use fact_log::log_facts;
use ns_base::{ComponentNo, LockNo, MethodNo};
use solution::Solution;
use std::alloc::Global;
use std::test::Fail;
use view_solver::solve_lock;

const RECEIVER: &str = "[[component]]\nkind = \"receiver\"\nclass = \"Lapp/R;\"\n";

const ACTIVITY: &str = "[[component]]\nkind = \"activity\"\nclass = \"Lapp/A;\"\n";

const SERVICES: &str =
    "[[component]]\nkind = \"service\"\nclass = \"Lapp/S;\"\n[[component]]\nkind = \"service\"\nclass = \"Lapp/T;\"\n";

// How many facts of a method hold.
#[tactic(auto, unfolding(solution::specs::Facts::place_count))]
fn count_method(subject: &Subject, solution: &Solution, method: MethodNo) -> u64
    requires places { HasPlaces subject.now solution.now }
    requires method { method.0 < length subject.now.app.methods }
{
    let mut count = solution.ret_word(method).count_ones() as u64;
    count += solution.exc_word(method).count_ones() as u64;
    if !subject.reaches(method) {
        return count;
    }
    for index in 0..subject.app.code_len(method) {
        count = count.wrapping_add(solution.at_word(method, index).count_ones() as u64);
    }
    count
}

fn count_views(subject: &Subject, solution: &Solution) -> u64
    requires { HasPlaces subject.now solution.now }
{
    subject.told();
    let mut count = 0u64;
    for component in 0..subject.list.rows.len() as u32 {
        let word = solution.view_word(ComponentNo(component));
        count = count.wrapping_add(word.count_ones() as u64);
    }
    count
}

fn count_facts(subject: &Subject, solution: &Solution) -> u64
    requires { HasPlaces subject.now solution.now }
{
    let mut count = 0u64;
    for method in 0..subject.app.method_count() {
        count = count.wrapping_add(count_method(subject, solution, MethodNo(method)));
    }
    count
}

fn subject_by(alloc: Global, digits: &[&str], list: &str) -> Result<Subject, Fail> {
    let app = read_app(alloc, digits)?;
    match subject_of(alloc, app, list.as_bytes()) {
        Ok(subject) => Ok(subject),
        Err(_) => Err("an application in scope".into()),
    }
}

// Whether the log of the first lock of a file has each fact once.
fn is_logged(alloc: Global, digits: &[&str], list: &str) -> Result<bool, Fail> {
    let subject = subject_by(alloc, digits, list)?;
    if subject.lock_count() == 0 {
        return Err("a lock".into());
    }
    let Ok(solution) = solve_lock(alloc, &subject, LockNo(0)) else {
        return Err("there is memory".into());
    };
    let Ok(log) = log_facts(alloc, &subject, LockNo(0), &solution) else {
        return Err("there is memory".into());
    };
    let lines = log.lines.len() as u64;
    let views = log.views.len() as u64;
    Ok(lines == count_facts(&subject, &solution) && views == count_views(&subject, &solution))
}

#[test]
fn each_fact_is_logged_once(rt: HostRuntime) -> Result<(), Fail> {
    assert!(rt; is_logged(rt.alloc(), &samples::THROWN_LEAKS, RECEIVER)?);
    assert!(rt; is_logged(rt.alloc(), &samples::MUTUAL_HOLDS, RECEIVER)?);
    assert!(rt; is_logged(rt.alloc(), &samples::RENEWING_ACTIVITY, ACTIVITY)?);
    assert!(rt; is_logged(rt.alloc(), &samples::TWO_SERVICES, SERVICES)?);
    Ok(())
}
