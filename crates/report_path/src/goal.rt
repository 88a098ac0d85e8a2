//! Where a step leads.
ghost use Rattle.std.specs.Prelude.{◌≡◌, ℕ};
ghost use Rattle.report_path.specs.Paths.{end_fact};
ghost use Rattle.report_path.specs.Tests.{fact_at};

/// Where a step leads in its method: before an instruction, or to an end.
#[derive(Clone, Copy, Debug, PartialEq, Eq)]
pub enum Goal {
    Before(u32),
    Returned,
    Thrown,
}

/// The end of a body.
pub fn end_goal(thrown: bool) -> Goal
    ensures { (m e s : ℕ) → fact_at result m e s ≡ end_fact thrown m e s }
{
    if thrown { Goal::Thrown } else { Goal::Returned }
}
