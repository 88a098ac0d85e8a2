//! The violations of a subject in scope, and the answer of `receiver` to them.
ghost use Rattle.std.specs.Prelude.{◌≡◌, [], map, Ok, IfOk};
ghost use Rattle.app_model.specs.Subject.{SubjectParts};
ghost use Rattle.one_scope.specs.Alike.{AreAlike};
ghost use Rattle.nosleep.specs.Events.{AreHelds};
ghost use Rattle.nosleep.specs.Judged.{IsReceived};
ghost use Rattle.nosleep.specs.Outcome.{IsReport, IsTold};
ghost use Rattle.report_path.specs.Reports.{violation_of};

use crate::refusing::{Answer, found_text};
use app_model::Subject;
use flow_model::Violation;
use ns_base::Exit;
use report_path::Report;
use report_text::{accept_text, heads_text};
use run_model::tagged_soundness;
use std::alloc::{AllocError, Global};
use view_solver::all_violations;

/// An answer, and the violations that watchers are told with it.
#[derive(Drop)]
pub struct Judged {
    pub answer: Answer,
    pub found: Vec<Violation>,
}

/// An answer with which no violation is told.
pub fn with_none(alloc: Global, answer: Answer) -> Judged
    ensures answer { result.answer ≡ answer }
    ensures none { result.found.items ≡ [] }
{
    Judged {
        answer,
        found: Vec::new(alloc),
    }
}

/// The answer of `receiver` to a subject in scope.
pub fn judge(alloc: Global, subject: &Subject) -> Result<Judged, AllocError>
    ensures judged { IfOk result (λ j. (y : SubjectParts) → AreAlike subject.now y → IsReceived y j.answer.text.items j.answer.exit) }
    ensures found { IfOk result (λ j. AreHelds (Ok subject.now) j.answer.exit j.found.items) }
{
    subject.told();
    tagged_soundness();
    let Ok(found) = all_violations(alloc, subject) else {
        return Err(AllocError);
    };
    let answer = tell(alloc, subject, &found)?;
    Ok(Judged { answer, found })
}

// The answer to violations.
fn tell(alloc: Global, subject: &Subject, violations: &[Violation]) -> Result<Answer, AllocError>
    ensures { IfOk result (λ a. IsTold subject.now.app subject.now.list violations.now a.text.items a.exit) }
{
    if violations.is_empty() {
        return Ok(Answer {
            exit: Exit::Accept,
            text: found_text(accept_text(alloc))?,
        });
    }
    report(alloc, subject, violations)
}

// The answer to some violations: their heads.
fn report(alloc: Global, subject: &Subject, violations: &[Violation]) -> Result<Answer, AllocError>
    ensures { IfOk result (λ a. IsReport subject.now.app subject.now.list violations.now a.text.items a.exit) }
{
    let bare = bare_reports(alloc, violations)?;
    Ok(Answer {
        exit: Exit::Reports,
        text: found_text(heads_text(alloc, subject, &bare))?,
    })
}

// Reports of violations, without paths.
fn bare_reports(alloc: Global, violations: &[Violation]) -> Result<Vec<Report>, AllocError>
    ensures { IfOk result (λ reports. map violation_of reports.items ≡ violations.now) }
{
    let mut reports = Vec::with_capacity(alloc, violations.len())?;
    for i in 0..violations.len() {
        reports.push(Report::bare(alloc, violations[i]))?;
    }
    Ok(reports)
}

/// The violations of reports, in their order.
pub fn violations_of(alloc: Global, reports: &[Report]) -> Result<Vec<Violation>, AllocError>
    ensures { IfOk result (λ found. found.items ≡ map violation_of reports.now) }
{
    let mut found = Vec::with_capacity(alloc, reports.len())?;
    for i in 0..reports.len() {
        found.push(reports[i].violation())?;
    }
    Ok(found)
}
