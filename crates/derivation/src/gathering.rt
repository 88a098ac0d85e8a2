//! The reports of lock fields one after the other, and their order.
ghost use Rattle.std.specs.Prelude.{◌≡◌, ◌<◌, ◌+◌, OnOk};
ghost use Rattle.app_model.specs.Subject.{slot_count};
ghost use Rattle.flow_model.specs.Derived.{IsLeast};
ghost use Rattle.flow_model.specs.Policy.{none_given};
ghost use Rattle.flow_model.specs.Rules.{Rules};
ghost use Rattle.report_path.specs.Reports.{violation_of};
ghost use Rattle.solution.specs.Facts.{HasPlaces, holds};
ghost use Rattle.view_solver.specs.Reported.{report_number};
ghost use Rattle.derivation.specs.AllReports.{AreAllReports, AreGathered};

use crate::reporting::derive;
use app_model::Subject;
use ns_base::{LockNo, OutOfMemory};
use report_path::Report;
use solution::Solution;
use std::alloc::{AllocError, Global};

/// Adds the reports of the next lock field, by its least solution.
pub fn derive_more(
    alloc: Global,
    subject: &Subject,
    lock: LockNo,
    solution: &Solution,
    reports: &mut Vec<Report>,
) -> Result<(), OutOfMemory>
    requires lock { lock.0 < slot_count subject.now }
    requires places { HasPlaces subject.now solution.now }
    requires least { IsLeast (Rules subject.now lock.0) none_given (holds solution.now) }
    requires before { AreGathered subject.now lock.0 reports.old.items }
    ensures { OnOk result (AreGathered subject.now (lock.0 + 1) reports.new.items) }
{
    let mut more = derive(alloc, subject, lock, solution)?;
    match reports.append(&mut more) {
        Ok(()) => Ok(()),
        Err(AllocError) => Err(OutOfMemory),
    }
}

// Reports are in the order of these numbers.
fn number_of(report: &Report) -> u64
    ensures { result ≡ report_number (violation_of report.now) }
{
    let place = 4_096 * report.component as u64 + 512 * report.callback as u64;
    place + 8 * report.lock as u64 + report.status as u64
}

/// Puts the reports of all lock fields in order: by component, callback, lock field, status. Takes no memory.
pub fn order_reports(subject: &Subject, reports: &mut Vec<Report>)
    requires { AreGathered subject.now (slot_count subject.now) reports.old.items }
    ensures { AreAllReports subject.now reports.new.items }
{
    subject.told();
    reports.sort_unstable_by_key(|report| number_of(report));
}
