//! The reports of all violations of a lock field, from a log of its facts.
ghost use Rattle.std.specs.Prelude.{◌≡◌, ◌<◌, ◌≤◌, IfOk, Some, length, slice_get};
ghost use Rattle.app_model.specs.Subject.{slot_count};
ghost use Rattle.flow_model.specs.Derived.{IsLeast};
ghost use Rattle.flow_model.specs.Policy.{none_given};
ghost use Rattle.flow_model.specs.Rules.{Rules};
ghost use Rattle.solution.specs.Facts.{HasPlaces, holds};
ghost use Rattle.fact_log.specs.Logs.{HasFacts, IsLog};
ghost use Rattle.derivation.specs.AllReports.{AreLogged, AreReports, AreReportsOf, IsLoggedViolation};
ghost use Rattle.derivation.specs.Cuts.{IsReportOf};

use crate::cutting::report_of;
use crate::leaving::exit_of;
use app_model::Subject;
use fact_log::{FactLog, log_facts};
use flow_model::Violation;
use ns_base::{LockNo, OutOfMemory};
use report_path::Report;
use solution::Solution;
use std::alloc::{AllocError, Global};
use view_solver::violations;

fn report_for(
    alloc: Global,
    subject: &Subject,
    log: &FactLog,
    bad: Violation,
) -> Result<Report, AllocError>
    requires lines { length log.now.lines.items ≤ 4294967295 }
    requires views { length log.now.views.items ≤ 4294967295 }
    requires logged { IsLoggedViolation subject.now log.now.lines.items log.now.views.items bad }
    ensures { IfOk result (IsReportOf subject.now bad) }
{
    let Some(exit) = exit_of(subject, log, bad) else {
        unreachable!()
    };
    let report = report_of(alloc, subject, log, bad, exit)?;
    Ok(report)
}

fn violation_at(found: &[Violation], k: usize) -> Violation
    requires { k < length found.now }
    ensures { slice_get found.now k ≡ Some result }
{
    found[k]
}

fn report_all(
    alloc: Global,
    subject: &Subject,
    log: &FactLog,
    found: &[Violation],
) -> Result<Vec<Report>, AllocError>
    requires lines { length log.now.lines.items ≤ 4294967295 }
    requires views { length log.now.views.items ≤ 4294967295 }
    requires logged { AreLogged subject.now log.now.lines.items log.now.views.items found.now }
    ensures { IfOk result (λ reports. AreReportsOf subject.now found.now reports.items) }
{
    let mut reports = Vec::new(alloc);
    for k in 0..found.len() {
        let bad = violation_at(found, k);
        let report = report_for(alloc, subject, log, bad)?;
        reports.push(report)?;
    }
    Ok(reports)
}

/// The reports of all violations for a lock, in order of component, callback and status, from a log that has each fact of the
/// least solution.
pub fn derive_from(
    alloc: Global,
    subject: &Subject,
    lock: LockNo,
    solution: &Solution,
    log: &FactLog,
) -> Result<Vec<Report>, OutOfMemory>
    requires lock { lock.0 < slot_count subject.now }
    requires places { HasPlaces subject.now solution.now }
    requires least { IsLeast (Rules subject.now lock.0) none_given (holds solution.now) }
    requires right { IsLog subject.now lock.0 log.now.lines.items log.now.views.items }
    requires covers { HasFacts log.now.lines.items log.now.views.items (holds solution.now) }
    ensures { IfOk result (λ reports. AreReports subject.now lock.0 reports.items) }
{
    let found = violations(alloc, subject, lock, solution)?;
    if log.lines.len() > 4_294_967_295 {
        return Err(OutOfMemory);
    }
    if log.views.len() > 4_294_967_295 {
        return Err(OutOfMemory);
    }
    match report_all(alloc, subject, log, &found) {
        Ok(reports) => Ok(reports),
        Err(AllocError) => Err(OutOfMemory),
    }
}

/// The reports of all violations for a lock field, by its least solution, in order of component, callback and status. Where
/// there is none, nothing is logged.
pub fn derive(
    alloc: Global,
    subject: &Subject,
    lock: LockNo,
    solution: &Solution,
) -> Result<Vec<Report>, OutOfMemory>
    requires lock { lock.0 < slot_count subject.now }
    requires places { HasPlaces subject.now solution.now }
    requires least { IsLeast (Rules subject.now lock.0) none_given (holds solution.now) }
    ensures { IfOk result (λ reports. AreReports subject.now lock.0 reports.items) }
{
    let found = violations(alloc, subject, lock, solution)?;
    if found.is_empty() {
        return Ok(Vec::new(alloc));
    }
    let log = log_facts(alloc, subject, lock, solution)?;
    derive_from(alloc, subject, lock, solution, &log)
}
