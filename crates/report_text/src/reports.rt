//! Reports with their paths.
ghost use Rattle.std.specs.Prelude.{◌≡◌, ◌<◌, ◌+◌, ◌++◌, length, slice_get, IfOk};
ghost use Rattle.report_text.specs.Reports as spec;
ghost use Rattle.report_text.specs.Reports.{part_at, reports_before};

use crate::heads::push_head;
use crate::texts::or_starved;
use app_model::Subject;
use ns_base::OutOfMemory;
use path_text::put_path;
use report_path::Report;
use std::alloc::{AllocError, Global};

/// Some reports, in their order: of each its head and the lines of its path. `docs/formats.md` has the lines.
pub fn reports_text(
    alloc: Global,
    subject: &Subject,
    reports: &[Report],
) -> Result<Vec<u8>, OutOfMemory>
    ensures { IfOk result (λ text. text.items ≡ spec.reports_text subject.now.app subject.now.list reports.now) }
{
    or_starved(all_parts(alloc, subject, reports))
}

fn all_parts(alloc: Global, subject: &Subject, reports: &[Report]) -> Result<Vec<u8>, AllocError>
    ensures { IfOk result (λ text. text.items ≡ spec.reports_text subject.now.app subject.now.list reports.now) }
{
    let mut text = Vec::new(alloc);
    for i in 0..reports.len() {
        push_part(alloc, &mut text, subject, reports, i)?;
    }
    Ok(text)
}

// Adds the report of that place.
fn push_part(
    alloc: Global,
    text: &mut Vec<u8>,
    subject: &Subject,
    reports: &[Report],
    i: usize,
) -> Result<(), AllocError>
    requires { i < length reports.now }
    ensures { IfOk result (λ _. text.new.items ≡ text.old.items ++ part_at subject.now.app subject.now.list (i + 1) (length reports.now) (slice_get reports.now i)) }
{
    push_head(alloc, text, subject, reports, i)?;
    put_path(text, &reports[i])
}
