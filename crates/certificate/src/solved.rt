//! The part of a certificate that the facts of a lock field give.
ghost use Rattle.std.specs.Prelude.{◌≡◌, ◌<◌, ◌≤◌, ◌∷◌, ◌++◌, ◌↔◌, [], length, true, flat_map, IfOk, OnOk};
ghost use Rattle.std.specs.List.{filter};
ghost use Rattle.app_model.specs.Shown.{lock_text, member_text};
ghost use Rattle.app_model.specs.Sound.{IsSoundApp};
ghost use Rattle.app_model.specs.Subject.{is_reached, slot_count};
ghost use Rattle.app_model.specs.Words.{code_len};
ghost use Rattle.solution.specs.Facts.{HasPlaces, holds};
ghost use Rattle.solution.specs.Table.{row_len};
ghost use Rattle.solution.specs.Words.{AreRows};
ghost use Rattle.cert_line.specs.Lines.{has_fact, is_shown};
ghost use Rattle.certificate.specs.Solved.{BodyFact, HasCode, HasRow, view_row, has_status, component_views, masks_of, body_row, code_bodies, method_bodies, numbers_below, part_of};
ghost use Rattle.certificate.specs.Texts.{IsPart};

use crate::parts::LockPart;
use app_model::{App, Subject, push_member};
use cert_line::{BodyRow, ViewRow};
use ns_base::{ComponentNo, LockNo, MethodNo, OutOfMemory};
use solution::{Solution, row_of};
use std::alloc::{AllocError, Global};

// The instructions of a method.
#[derive(Clone, Copy)]
struct Code {
    method: MethodNo,
    len: u32,
}

fn view_of(solution: &Solution, component: ComponentNo, state: u8) -> ViewRow
    requires component { component.0 < row_len solution.now.ends 2 }
    requires state { state < 8 }
    ensures { result ≡ view_row (holds solution.now) component.0 state }
{
    ViewRow {
        component: component.0,
        state,
        mask: solution.view(component, state),
    }
}

fn put_view(rows: &mut Vec<ViewRow>, row: ViewRow) -> Result<(), AllocError>
    ensures { OnOk result (rows.new.items ≡ rows.old.items ++ filter has_status (row ∷ [])) }
{
    if row.mask > 0 {
        rows.push(row)?;
    }
    Ok(())
}

#[tactic(auto, unfolding(crate::specs::Solved::component_views))]
fn put_views(
    rows: &mut Vec<ViewRow>,
    solution: &Solution,
    component: ComponentNo,
) -> Result<(), AllocError>
    requires { component.0 < row_len solution.now.ends 2 }
    ensures { OnOk result (rows.new.items ≡ rows.old.items ++ component_views (holds solution.now) component.0) }
{
    for state in 0..8u8 {
        put_view(rows, view_of(solution, component, state))?;
    }
    Ok(())
}

fn views(alloc: Global, subject: &Subject, solution: &Solution) -> Result<Vec<ViewRow>, AllocError>
    requires { HasPlaces subject.now solution.now }
    ensures { IfOk result (λ rows. rows.items ≡ flat_map (component_views (holds solution.now)) (numbers_below (length subject.now.list))) }
{
    let mut rows = Vec::new(alloc);
    for component in 0..subject.list.rows.len() as u32 {
        put_views(&mut rows, solution, ComponentNo(component))?;
    }
    Ok(rows)
}

fn masks(alloc: Global, solution: &Solution, code: Code, entry: u8) -> Result<Vec<u8>, AllocError>
    requires entry { entry < 8 }
    requires len { code.len ≤ row_len solution.now.code code.method.0 }
    ensures { IfOk result (λ masks. masks.items ≡ masks_of (holds solution.now) code.method.0 code.len entry) }
{
    let mut masks = Vec::with_capacity(alloc, code.len as usize)?;
    for index in 0..code.len {
        masks.push(solution.at(code.method, entry, index))?;
    }
    Ok(masks)
}

fn body_of(alloc: Global, solution: &Solution, code: Code, entry: u8) -> Result<BodyRow, AllocError>
    requires entry { entry < 8 }
    requires code { HasCode solution.now code.method.0 code.len }
    ensures { IfOk result (λ row. row ≡ body_row (holds solution.now) code.method.0 code.len entry) }
{
    Ok(BodyRow {
        method: code.method.0,
        entry,
        ret: solution.ret(code.method, entry),
        exc: solution.exc(code.method, entry),
        masks: masks(alloc, solution, code, entry)?,
    })
}

fn end_facts(solution: &Solution, method: MethodNo) -> u64
    requires ret { method.0 < row_len solution.now.ends 0 }
    requires exc { method.0 < row_len solution.now.ends 1 }
    ensures { AreRows (BodyFact (holds solution.now) method.0 0) 8 result }
{
    solution.ret_word(method) | solution.exc_word(method)
}

// The entry statuses at which a method has facts, as the rows that are not empty: one look at each instruction tells
// which rows are worth writing.
fn facts_of(solution: &Solution, code: Code) -> u64
    requires { HasCode solution.now code.method.0 code.len }
    ensures { AreRows (BodyFact (holds solution.now) code.method.0 code.len) 8 result }
{
    let mut facts = end_facts(solution, code.method);
    for index in 0..code.len {
        facts |= solution.at_word(code.method, index);
    }
    facts
}

fn has_row(facts: u64, entry: u8) -> bool
    requires { entry < 8 }
    ensures { (result ≡ true) ↔ HasRow facts entry }
{
    row_of(facts, entry) > 0
}

fn put_body(
    alloc: Global,
    rows: &mut Vec<BodyRow>,
    solution: &Solution,
    code: Code,
    entry: u8,
    facts: u64,
) -> Result<(), AllocError>
    requires entry { entry < 8 }
    requires code { HasCode solution.now code.method.0 code.len }
    requires facts { AreRows (BodyFact (holds solution.now) code.method.0 code.len) 8 facts }
    ensures { OnOk result (rows.new.items ≡ rows.old.items ++ filter has_fact (body_row (holds solution.now) code.method.0 code.len entry ∷ [])) }
{
    if has_row(facts, entry) {
        rows.push(body_of(alloc, solution, code, entry)?)?;
    }
    Ok(())
}

#[tactic(auto, unfolding(crate::specs::Solved::code_bodies))]
fn put_bodies(
    alloc: Global,
    rows: &mut Vec<BodyRow>,
    solution: &Solution,
    code: Code,
) -> Result<(), AllocError>
    requires { HasCode solution.now code.method.0 code.len }
    ensures { OnOk result (rows.new.items ≡ rows.old.items ++ code_bodies (holds solution.now) code.method.0 code.len) }
{
    let facts = facts_of(solution, code);
    for entry in 0..8u8 {
        put_body(alloc, rows, solution, code, entry, facts)?;
    }
    Ok(())
}

#[tactic(auto, unfolding(crate::specs::Solved::method_bodies))]
fn put_method(
    alloc: Global,
    rows: &mut Vec<BodyRow>,
    subject: &Subject,
    solution: &Solution,
    method: MethodNo,
) -> Result<(), AllocError>
    requires method { method.0 < length subject.now.app.methods }
    requires places { HasPlaces subject.now solution.now }
    ensures { OnOk result (rows.new.items ≡ rows.old.items ++ method_bodies subject.now (holds solution.now) method.0) }
{
    if !subject.reaches(method) {
        return Ok(());
    }
    let len = subject.app.code_len(method);
    put_bodies(alloc, rows, solution, Code { method, len })
}

fn bodies(alloc: Global, subject: &Subject, solution: &Solution) -> Result<Vec<BodyRow>, AllocError>
    requires { HasPlaces subject.now solution.now }
    ensures { IfOk result (λ rows. rows.items ≡ flat_map (method_bodies subject.now (holds solution.now)) (numbers_below (length subject.now.app.methods))) }
{
    let mut rows = Vec::new(alloc);
    for method in 0..subject.app.method_count() {
        put_method(alloc, &mut rows, subject, solution, MethodNo(method))?;
    }
    Ok(rows)
}

fn shown_name(alloc: Global, class: &[u8], field: &[u8]) -> Result<Vec<u8>, AllocError>
    ensures text { IfOk result (λ text. text.items ≡ member_text class.now field.now) }
    ensures shown { IfOk result (λ text. is_shown text.items ≡ true) }
{
    let mut text = Vec::new(alloc);
    push_member(&mut text, class, field)?;
    Ok(text)
}

fn lock_name(alloc: Global, app: &App, lock: LockNo) -> Result<Vec<u8>, AllocError>
    requires sound { IsSoundApp app.now }
    requires lock { lock.0 < length app.now.locks }
    ensures text { IfOk result (λ text. text.items ≡ lock_text app.now lock.0) }
    ensures shown { IfOk result (λ text. is_shown text.items ≡ true) }
{
    match app.lock_field(lock) {
        Some(field) => shown_name(
            alloc,
            app.class_text(field.class),
            app.name_text(field.name),
        ),
        None => Ok(Vec::new(alloc)),
    }
}

fn part(
    alloc: Global,
    subject: &Subject,
    lock: LockNo,
    solution: &Solution,
) -> Result<LockPart, AllocError>
    requires sound { IsSoundApp subject.now.app }
    requires lock { lock.0 < length subject.now.app.locks }
    requires places { HasPlaces subject.now solution.now }
    ensures rows { IfOk result (λ p. p ≡ part_of subject.now lock.0 (holds solution.now)) }
    ensures shown { IfOk result (λ p. is_shown p.name ≡ true) }
{
    Ok(LockPart {
        name: lock_name(alloc, &subject.app, lock)?,
        views: views(alloc, subject, solution)?,
        bodies: bodies(alloc, subject, solution)?,
    })
}

/// The rows of the facts of a lock field. Facts of a method that the callbacks do not reach have none: no rule
/// leads to one.
#[tactic(auto, unfolding(app_model::specs::Subject::slot_count))]
pub fn lock_part(
    alloc: Global,
    subject: &Subject,
    lock: LockNo,
    solution: &Solution,
) -> Result<LockPart, OutOfMemory>
    requires lock { lock.0 < slot_count subject.now }
    requires places { HasPlaces subject.now solution.now }
    ensures rows { IfOk result (λ p. p ≡ part_of subject.now lock.0 (holds solution.now)) }
    // It has a text.
    ensures text { IfOk result (λ p. IsPart p) }
{
    subject.told();
    match part(alloc, subject, lock, solution) {
        Ok(part) => Ok(part),
        Err(AllocError) => Err(OutOfMemory),
    }
}
