//! The report of a violation, from a log.
ghost use Rattle.std.specs.Prelude.{IfOk};
ghost use Rattle.derivation.specs.Cuts.{IsCut};

use crate::making::{make_bodies, number_at, number_of};
use crate::marking::mark_needed;
use crate::seeing::make_views;
use app_model::Subject;
use fact_log::FactLog;
use flow_model::Violation;
use report_path::Report;
use std::alloc::{AllocError, Global};

/// What makes a violation: the number of a view of the log, of an edge, and of the line of the end that it cites.
#[derive(Clone, Copy, Debug, PartialEq, Eq)]
pub struct Exit {
    pub view: u32,
    pub edge: u32,
    pub end: Option<u32>,
}

/// The report of a violation, cut out of a log; no clause says that it has nothing but what it needs.
pub fn report_of(
    alloc: Global,
    subject: &Subject,
    log: &FactLog,
    violation: Violation,
    exit: Exit,
) -> Result<Report, AllocError>
    ensures { IfOk result (IsCut subject.now violation log.now.lines.items log.now.views.items exit) }
{
    subject.told();
    let needed = mark_needed(alloc, log, exit)?;
    let made = make_bodies(alloc, subject, &log.lines, &needed.lines)?;
    let seen = make_views(alloc, &log.views, &needed.views, &made.numbers)?;
    Ok(Report {
        component: violation.component,
        callback: violation.callback,
        lock: violation.lock,
        status: violation.status,
        bodies: made.bodies,
        views: seen.views,
        view: number_of(&seen.places, exit.view),
        edge: exit.edge,
        body: number_at(&made.numbers, exit.end),
    })
}
