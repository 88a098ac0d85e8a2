//! The heads of the reports.
ghost use Rattle.std.specs.Prelude.{◌≡◌, ◌<◌, ◌+◌, ◌++◌, length, map, slice_get, slice_index_or, codes, IfOk, []};
ghost use Rattle.app_model.specs.Components.{callbacks_of};
ghost use Rattle.report_path.specs.Reports.{violation_of};
ghost use Rattle.report_text.specs.Heads as spec;
ghost use Rattle.report_text.specs.Heads.{callback_text, head_text, heads_before, no_violation, status_name, violation_text};

use crate::numbers::push_decimal;
use crate::texts::or_starved;
use app_model::{App, ComponentRow, Kind, Subject, push_member};
use flow_model::Violation;
use ns_base::{LockNo, OutOfMemory};
use report_path::Report;
use std::alloc::{AllocError, Global};

/// The heads of some reports, in their order. Of a report its component, callback, lock field and status are looked at.
pub fn heads_text(
    alloc: Global,
    subject: &Subject,
    reports: &[Report],
) -> Result<Vec<u8>, OutOfMemory>
    ensures { IfOk result (λ text. text.items ≡ spec.heads_text subject.now.app subject.now.list (map violation_of reports.now)) }
{
    or_starved(all_heads(alloc, subject, reports))
}

fn all_heads(alloc: Global, subject: &Subject, reports: &[Report]) -> Result<Vec<u8>, AllocError>
    ensures { IfOk result (λ text. text.items ≡ spec.heads_text subject.now.app subject.now.list (map violation_of reports.now)) }
{
    let mut text = Vec::new(alloc);
    for i in 0..reports.len() {
        push_head(alloc, &mut text, subject, reports, i)?;
    }
    Ok(text)
}

/// Adds the head of the report of that place.
pub fn push_head(
    alloc: Global,
    text: &mut Vec<u8>,
    subject: &Subject,
    reports: &[Report],
    i: usize,
) -> Result<(), AllocError>
    requires { i < length reports.now }
    ensures { IfOk result (λ _. text.new.items ≡ text.old.items ++ head_text subject.now.app subject.now.list (i + 1) (length (map violation_of reports.now)) (slice_index_or (map violation_of reports.now) i no_violation)) }
{
    let violation = violation_at(reports, i);
    push_head_of(alloc, text, subject, i, reports.len(), violation)
}

// The violation of which the report of that place is.
fn violation_at(reports: &[Report], i: usize) -> Violation
    requires { i < length reports.now }
    ensures { result ≡ slice_index_or (map violation_of reports.now) i no_violation }
{
    reports[i].violation()
}

// Adds the head of report i of so many, counted from 0.
#[tactic(auto, unfolding(crate::specs::Heads::head_text))]
fn push_head_of(
    alloc: Global,
    text: &mut Vec<u8>,
    subject: &Subject,
    i: usize,
    count: usize,
    violation: Violation,
) -> Result<(), AllocError>
    requires { i < count }
    ensures { IfOk result (λ _. text.new.items ≡ text.old.items ++ head_text subject.now.app subject.now.list (i + 1) count violation) }
{
    text.extend_from_slice(b"report ")?;
    push_decimal(alloc, text, i + 1)?;
    text.extend_from_slice(b" of ")?;
    push_decimal(alloc, text, count)?;
    text.extend_from_slice(b": ")?;
    push_violation(text, &subject.app, &subject.list.rows, violation)?;
    text.push(b'\n')?;
    Ok(())
}

/// Adds which lock field is at which status after which callback.
#[tactic(auto, unfolding(crate::specs::Heads::violation_text))]
pub fn push_violation(
    text: &mut Vec<u8>,
    app: &App,
    list: &[ComponentRow],
    violation: Violation,
) -> Result<(), AllocError>
    ensures { IfOk result (λ _. text.new.items ≡ text.old.items ++ violation_text app.now list.now violation) }
{
    app.push_lock(text, LockNo(violation.lock))?;
    text.extend_from_slice(b" is ")?;
    text.extend_from_slice(name_of_status(violation.status))?;
    text.extend_from_slice(b" after ")?;
    push_callback(text, app, list, violation.component, violation.callback)
}

#[tactic(auto, unfolding(crate::specs::Heads::callback_text))]
fn push_callback(
    text: &mut Vec<u8>,
    app: &App,
    list: &[ComponentRow],
    component: u32,
    callback: u32,
) -> Result<(), AllocError>
    ensures { IfOk result (λ _. text.new.items ≡ text.old.items ++ callback_text app.now list.now component callback) }
{
    match list.get(component as usize) {
        Some(row) => push_member(
            text,
            app.class_text(row.class),
            name_of_callback(row.kind, callback),
        ),
        None => Ok(()),
    }
}

fn name_of_callback(kind: Kind, callback: u32) -> &'static [u8]
    ensures { result.now ≡ slice_index_or (callbacks_of kind) callback [] }
{
    match (kind, callback) {
        (Kind::Activity | Kind::Service, 0) => b"onCreate",
        (Kind::Activity, 1) | (Kind::Service, 2) => b"onStart",
        (Kind::Activity, 2) => b"onResume",
        (Kind::Activity, 3) => b"onPause",
        (Kind::Activity, 4) => b"onStop",
        (Kind::Activity, 5) => b"onRestart",
        (Kind::Activity | Kind::Service, 6) => b"onDestroy",
        (Kind::Service, 1) => b"onStartCommand",
        (Kind::Service, 3) => b"onBind",
        (Kind::Service, 4) => b"onUnbind",
        (Kind::Service, 5) => b"onRebind",
        (Kind::Receiver, 0) => b"onReceive",
        (Kind::Runnable, 0) => b"run",
        _ => &[],
    }
}

fn name_of_status(status: u8) -> &'static [u8]
    ensures { result.now ≡ status_name status }
{
    match status {
        0 => b"A",
        1 => b"C0",
        2 => b"C1",
        3 => b"C2",
        4 => b"CT",
        5 => b"U0",
        6 => b"U1",
        7 => b"L",
        _ => &[],
    }
}
