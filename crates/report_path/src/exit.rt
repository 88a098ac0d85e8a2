//! The last step of a report: whether it is the violation that the report names.
ghost use Rattle.std.specs.Prelude.{◌≡◌, ◌↔◌, IsTrue, slice_get};
ghost use Rattle.app_model.specs.Components.{exits_at};
ghost use Rattle.app_model.specs.Masks.{in_mask};
ghost use Rattle.report_path.specs.Lookups.{Has};
ghost use Rattle.report_path.specs.Reports.{IsExit};
ghost use Rattle.report_path.specs.Tests.{EndsBy, IsEnd, IsUnmet, case_in};

use crate::report::{Report, ViewStep};
use crate::task::Task;
use crate::views::{Carrier, view_at};
use app_model::{Edge, Subject};
use flow_model::has_status;
use ns_base::{ComponentNo, LockNo};

// The held statuses.
const HELD: u8 = 0xdc;

fn has_bit(mask: u8, number: u32) -> bool
    ensures { result ≡ in_mask mask number }
{
    number < 8 && has_status(mask, number as usize)
}

// The policy exits of a component, as a mask over its callbacks.
#[tactic(auto, unfolding(app_model::specs::Components::exits_at))]
fn exits(subject: &Subject, component: u32) -> u8
    ensures { result ≡ exits_at subject.now.list component }
{
    match subject.list.rows.get(component as usize) {
        Some(row) => row.exits,
        None => 0,
    }
}

fn is_unmet(subject: &Subject, report: &Report) -> bool
    ensures { IsTrue result ↔ IsUnmet subject.now report.now }
{
    if report.lock >= subject.lock_count() {
        return false;
    }
    if !has_bit(exits(subject, report.component), report.callback) {
        return false;
    }
    if !has_bit(HELD, report.status as u32) {
        return false;
    }
    subject.answers_for(ComponentNo(report.component), LockNo(report.lock))
}

fn ends_by(task: &Task, report: &Report, view: ViewStep, edge: Edge) -> bool
    ensures { IsTrue result ↔ EndsBy (case_in task.now) report.now view edge }
{
    if edge.callback as u32 != report.callback {
        return false;
    }
    task.moves(view, edge, report.body, report.status)
}

fn is_end(task: &Task, report: &Report, view: ViewStep) -> bool
    ensures { IsTrue result ↔ IsEnd (case_in task.now) report.now view }
{
    if view.component != report.component {
        return false;
    }
    match task.edge(report.component, report.edge) {
        Some(edge) => ends_by(task, report, view, edge),
        None => false,
    }
}

fn ends(task: &Task, report: &Report) -> bool
    ensures { IsTrue result ↔ Has (slice_get report.now.views.items report.now.view) (λ v. IsEnd (case_in task.now) report.now v) }
{
    match view_at(&report.views, report.view) {
        Some(view) => is_end(task, report, view),
        None => false,
    }
}

/// Whether the last step is right.
pub fn is_exit(subject: &Subject, report: &Report) -> bool
    ensures { IsTrue result ↔ IsExit subject.now report.now }
{
    if !is_unmet(subject, report) {
        return false;
    }
    let task = Task::new(subject, LockNo(report.lock), &report.bodies);
    ends(&task, report)
}
