//! The reports that a text spells, or the first wrong line.
ghost use Rattle.std.specs.Prelude.{ℕ, ◌≡◌, ◌+◌, ◌==◌, ◌&&◌, ◌||◌, Err, IfOk, List, Ok, length, map, nat_le};
ghost use Rattle.cert_line.specs.Reading.{pieces};
ghost use Rattle.path_text.specs.Lines.{path_text};
ghost use Rattle.path_reader.specs.Parts.{ReportParts};
ghost use Rattle.path_reader.specs.Reading.{accepted, follow, is_end, may_begin, may_have_body, may_have_view, outcome, read, reading, start, step};
ghost use Rattle.path_reader.specs.Texts.{IsReadBack, IsReportsText, Written, report_parts, report_text};
ghost use Rattle.path_reader.specs.Wrong.{Gives, HasFirstWrong, OnLine};
ghost use Rattle.path_reader.specs.declared.lines.Line.TheVariants as lines;

use crate::lines::{Head, Last, Line, NumberedBody, NumberedView, line_of};
use cert_line::cut;
use report_path::{BodyPath, Report, ViewStep};
use std::alloc::{AllocError, Global};
use std::marker::Model;
use std::mem::replace;

/// Why bytes are no text of reports.
#[derive(Clone, Copy, Debug, PartialEq, Eq)]
pub enum ReadBack {
    /// The first wrong line, counted from 1; where the bytes end too early, the line that is missing or unfinished.
    Line(u64),
    Memory,
}

// What the lines so far tell.
#[derive(Drop)]
struct Reader {
    done: Vec<Report>,
    total: u32,
    inside: bool,
    bodies: Vec<BodyPath>,
    views: Vec<ViewStep>,
}

impl Model for Reader {
    ghost use Rattle.std.specs.Prelude.{map};
    ghost use Rattle.path_reader.specs.Parts.{State};
    ghost use Rattle.path_reader.specs.Texts.{body_parts, report_parts};

    ghost Value = { State };

    ghost view = { λ r. record { done = map report_parts r.done.items; total = r.total; inside = r.inside; bodies = map body_parts r.bodies.items; views = r.views.items } };
}

fn is_next(done: usize, total: u32, head: Head) -> bool
    ensures { result ≡ ((head.number == done + 1) && nat_le head.number head.total && ((total == 0) || (total == head.total))) }
{
    if head.number as u128 != done as u128 + 1 || head.number > head.total {
        return false;
    }
    total == 0 || total == head.total
}

#[tactic(auto, unfolding(crate::specs::Reading::follow))]
fn put_head(reader: &mut Reader, head: Head) -> bool
    ensures { accepted result reader.new ≡ follow reader.old (lines.Head head) }
{
    if reader.inside || !is_next(reader.done.len(), reader.total, head) {
        return false;
    }
    reader.total = head.total;
    reader.inside = true;
    true
}

#[tactic(auto, unfolding(crate::specs::Reading::follow))]
fn put_body(reader: &mut Reader, body: NumberedBody) -> Result<bool, AllocError>
    ensures { IfOk result (λ ok. accepted ok reader.new ≡ follow reader.old (lines.Body body)) }
{
    if !reader.inside || reader.views.len() > 0 || body.number as usize != reader.bodies.len() {
        return Ok(false);
    }
    reader.bodies.push(body.body)?;
    Ok(true)
}

#[tactic(auto, unfolding(crate::specs::Reading::follow))]
fn put_view(reader: &mut Reader, view: NumberedView) -> Result<bool, AllocError>
    ensures { IfOk result (λ ok. accepted ok reader.new ≡ follow reader.old (lines.View view)) }
{
    if !reader.inside || view.number as usize != reader.views.len() {
        return Ok(false);
    }
    reader.views.push(view.view)?;
    Ok(true)
}

#[tactic(auto, unfolding(crate::specs::Reading::follow))]
fn put_last(alloc: Global, reader: &mut Reader, last: Last) -> Result<bool, AllocError>
    ensures { IfOk result (λ ok. accepted ok reader.new ≡ follow reader.old (lines.Exit last)) }
{
    if !reader.inside {
        return Ok(false);
    }
    let report = Report {
        component: last.component,
        callback: last.edge,
        lock: last.lock,
        status: last.status,
        bodies: replace(&mut reader.bodies, Vec::new(alloc)),
        views: replace(&mut reader.views, Vec::new(alloc)),
        view: last.view,
        edge: last.edge,
        body: last.body,
    };
    reader.done.push(report)?;
    reader.inside = false;
    Ok(true)
}

// Puts one more line to what is read, if it may stand there.
#[tactic(auto, unfolding(crate::specs::Reading::step))]
fn put(alloc: Global, reader: &mut Reader, bytes: &[u8]) -> Result<bool, AllocError>
    ensures { IfOk result (λ ok. accepted ok reader.new ≡ step reader.old bytes.now) }
{
    match line_of(alloc, bytes)? {
        None => Ok(false),
        Some(Line::Head(head)) => Ok(put_head(reader, head)),
        Some(Line::Body(body)) => put_body(reader, body),
        Some(Line::View(view)) => put_view(reader, view),
        Some(Line::Exit(last)) => put_last(alloc, reader, last),
    }
}

fn at_end(reader: &Reader, rest: &[u8]) -> bool
    ensures { result ≡ (is_end reader.now && (length rest.now == 0)) }
{
    !reader.inside && reader.done.len() == reader.total as usize && rest.is_empty()
}

// Puts all lines to what is read, up to the first wrong one: its number.
#[tactic(auto, using(crate::proofs::OneLine::read_line, crate::proofs::OneLine::wrong_line), unfolding(crate::specs::Reading::read))]
fn put_lines(alloc: Global, reader: &mut Reader, bytes: &[u8]) -> Result<Option<u64>, AllocError>
    ensures { IfOk result (λ o. read reader.old 1 (pieces 10 bytes.now) ≡ outcome reader.new o) }
{
    let mut rest = bytes;
    let mut number: u64 = 1;
    while let Some((line, more)) = cut(rest, b'\n') {
        if !put(alloc, reader, line)? {
            return Ok(Some(number));
        }
        rest = more;
        number += 1;
    }
    if at_end(reader, rest) {
        Ok(None)
    } else {
        Ok(Some(number))
    }
}

/// The reports that the bytes spell, all of the bytes, or the first wrong line. Of a head no more than the numbers is
/// read; the callback of a report is the number of its edge.
pub fn read_reports(alloc: Global, bytes: &[u8]) -> Result<Vec<Report>, ReadBack>
    // What is read is spelled so.
    ensures found { IfOk result (λ reports. IsReportsText bytes.now (map report_parts reports.items)) }
    // What is spelled so is read, unless memory runs out.
    ensures only { (rs : List ReportParts) → IsReportsText bytes.now rs → Gives result (Ok rs) }
    // The line that is named is the first wrong one.
    ensures line { OnLine result (λ n. HasFirstWrong n bytes.now) }
    // Where a line is the first wrong one, it is named, unless memory runs out.
    ensures named { (n : ℕ) → HasFirstWrong n bytes.now → Gives result (Err n) }
{
    reports_in(alloc, bytes)
}

#[tactic(auto, unfolding(crate::specs::Reading::reading))]
fn reports_in(alloc: Global, bytes: &[u8]) -> Result<Vec<Report>, ReadBack>
    ensures { Gives result (reading bytes.now) }
{
    let mut reader = Reader {
        done: Vec::new(alloc),
        total: 0,
        inside: false,
        bodies: Vec::new(alloc),
        views: Vec::new(alloc),
    };
    match put_lines(alloc, &mut reader, bytes) {
        Ok(None) => Ok(reader.done),
        Ok(Some(n)) => Err(ReadBack::Line(n)),
        Err(AllocError) => Err(ReadBack::Memory),
    }
}

/// The text of a report as it is written is that of its parts, and what was written is read back, with the number of its
/// edge as the callback of each report.
pub fn written_is_read()
    ensures text { (report : Report) → path_text report ≡ report_text (report_parts report) }
    ensures read { (written : List Written) → IsReadBack written }
{}
