//! What holds of every report, whoever reads it: a report that is valid for a subject is valid for each subject in scope of the
//! same application and component list.
//!
//! - `Alike` (of `proofs/`): bodies, views and the last step of one are those of the other.
#![tactic(auto)]

ghost use Rattle.app_model.specs.Subject.{SubjectParts};
ghost use Rattle.one_scope.specs.Alike.{AreAlike};
ghost use Rattle.report_path.specs.declared.report.Report.{Report};
ghost use Rattle.report_path.specs.Reports.{IsValidReport};

/// Subjects in scope of one application and list have the same valid reports.
pub fn alike_reports()
    ensures { (x y : SubjectParts) → AreAlike x y → (r : Report) → IsValidReport x r → IsValidReport y r }
{}
