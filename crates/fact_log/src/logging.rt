//! The log of a solution.
ghost use Rattle.std.specs.Prelude.{◌<◌, IfOk, OnOk};
ghost use Rattle.app_model.specs.Subject.{slot_count};
ghost use Rattle.flow_model.specs.Derived.{IsLeast};
ghost use Rattle.flow_model.specs.Policy.{none_given};
ghost use Rattle.flow_model.specs.Rules.{Rules};
ghost use Rattle.solution.specs.Facts.{HasPlaces, holds};
ghost use Rattle.fact_log.specs.Logs.{HasFacts, IsLog};
ghost use Rattle.fact_log.specs.Work.{Keeps, NothingNew};

use crate::log::FactLog;
use crate::work::Work;
use app_model::Subject;
use ns_base::{LockNo, OutOfMemory};
use solution::Solution;
use std::alloc::{AllocError, Global};

// Nearly all is there before what is missing is searched for.
fn fill(alloc: Global, work: &mut Work) -> Result<(), AllocError>
    ensures keeps { Keeps work.old work.new }
    ensures done { OnOk result (NothingNew work.new) }
{
    work.gather(alloc)?;
    work.close()
}

/// The facts of the least solution for a lock field, each with its reason.
pub fn log_facts(
    alloc: Global,
    subject: &Subject,
    lock: LockNo,
    solution: &Solution,
) -> Result<FactLog, OutOfMemory>
    requires lock { lock.0 < slot_count subject.now }
    requires places { HasPlaces subject.now solution.now }
    requires least { IsLeast (Rules subject.now lock.0) none_given (holds solution.now) }
    ensures right { IfOk result (λ log. IsLog subject.now lock.0 log.lines.items log.views.items) }
    ensures covers { IfOk result (λ log. HasFacts log.lines.items log.views.items (holds solution.now)) }
{
    let mut work = Work::new(alloc, subject, lock, solution)?;
    match fill(alloc, &mut work) {
        Ok(()) => {
            work.told();
            Ok(work.into_log())
        }
        Err(AllocError) => Err(OutOfMemory),
    }
}
