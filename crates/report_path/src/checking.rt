//! The test of a report.
ghost use Rattle.std.specs.Prelude.{◌+◌, ◌≤◌, length};
ghost use Rattle.report_path.specs.Reports.{FirstWrong, IsVerdict, RightBody, RightView};
ghost use Rattle.report_path.specs.Tests.{case_in};

use crate::exit::is_exit;
use crate::report::{BodyPath, Report, ViewStep};
use crate::steps::is_body;
use crate::task::Task;
use crate::views::is_view;
use app_model::Subject;
use ns_base::LockNo;

// The first body that is wrong.
fn wrong_body(subject: &Subject, lock: LockNo, bodies: &[BodyPath]) -> Option<usize>
    ensures { FirstWrong (RightBody subject.now lock.0 bodies.now) result }
{
    for k in 0..bodies.len() {
        let (before, _) = bodies.split_at(k);
        if !is_body(subject, lock, before, &bodies[k]) {
            return Some(k);
        }
    }
    None
}

// The first view that is wrong.
fn wrong_view(task: &Task, views: &[ViewStep]) -> Option<usize>
    ensures { FirstWrong (RightView (case_in task.now) views.now) result }
{
    for k in 0..views.len() {
        let (before, _) = views.split_at(k);
        if !is_view(task, before, views[k]) {
            return Some(k);
        }
    }
    None
}

/// Tests a report. A refusal names the first piece that is wrong: bodies are counted first, then views, then the last step.
pub fn check_report(subject: &Subject, report: &Report) -> Result<(), u32>
    requires { length report.now.bodies.items + length report.now.views.items ≤ 4294967295 }
    ensures { IsVerdict subject.now report.now result }
{
    let lock = LockNo(report.lock);
    let bodies: &[BodyPath] = &report.bodies;
    let views: &[ViewStep] = &report.views;
    if let Some(k) = wrong_body(subject, lock, bodies) {
        return Err(k as u32);
    }
    let task = Task::new(subject, lock, bodies);
    if let Some(k) = wrong_view(&task, views) {
        return Err((bodies.len() + k) as u32);
    }
    if !is_exit(subject, report) {
        return Err((bodies.len() + views.len()) as u32);
    }
    Ok(())
}
