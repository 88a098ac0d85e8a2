//! What a valid report shows.
ghost use Rattle.app_model.specs.Subject.{SubjectParts, IsSubject};
ghost use Rattle.flow_model.specs.Policy.{IsDerivableViolation};
ghost use Rattle.report_path.specs.declared.report.Report.{Report};
ghost use Rattle.report_path.specs.Reports.{IsValidReport};

/// The flow rules derive the violation of a valid report.
pub fn report_law()
    ensures { (x : SubjectParts) (r : Report) → IsSubject x → IsValidReport x r → IsDerivableViolation x r.lock r.component r.callback r.status }
{}
