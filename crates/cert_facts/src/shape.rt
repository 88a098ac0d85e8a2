//! Whether the parts of a certificate fit the subject.
ghost use Rattle.std.specs.Prelude.{◌≡◌, ◌↔◌, ◌<◌, IsTrue, slice_get};
ghost use Rattle.std.specs.List.{All};
ghost use Rattle.app_model.specs.Subject.{is_reached, slot_count};
ghost use Rattle.cert_facts.specs.Shape.{state_count, FitsView, FitsBody, HasName, FitsLock, FitsAt, IsFirstUnfit};

use app_model::{Kind, Subject};
use certificate::{BodyRow, LockPart, ViewRow};
use ns_base::{LockNo, MethodNo};

fn state_count(kind: Kind) -> u8
    ensures { result ≡ state_count kind }
{
    match kind {
        Kind::Activity => 7,
        Kind::Service => 2,
        Kind::Receiver | Kind::Runnable => 1,
    }
}

#[tactic(auto, unfolding(crate::specs::Shape::states_at))]
fn fits_view(subject: &Subject, row: &ViewRow) -> bool
    ensures { IsTrue result ↔ FitsView subject.now row.now }
{
    match subject.list.rows.get(row.component as usize) {
        Some(component) => row.state < state_count(component.kind),
        None => false,
    }
}

fn fit_views(subject: &Subject, rows: &[ViewRow]) -> bool
    ensures { IsTrue result ↔ All (FitsView subject.now) rows.now }
{
    for row in rows {
        if !fits_view(subject, row) {
            return false;
        }
    }
    true
}

fn is_reached(subject: &Subject, method: u32) -> bool
    ensures { result ≡ is_reached subject.now method }
{
    subject.told();
    method < subject.app.method_count() && subject.reaches(MethodNo(method))
}

fn fits_body(subject: &Subject, row: &BodyRow) -> bool
    ensures { IsTrue result ↔ FitsBody subject.now row.now }
{
    if !is_reached(subject, row.method) {
        return false;
    }
    row.entry < 8 && row.masks.len() == subject.app.code_len(MethodNo(row.method)) as usize
}

fn fit_bodies(subject: &Subject, rows: &[BodyRow]) -> bool
    ensures { IsTrue result ↔ All (FitsBody subject.now) rows.now }
{
    for row in rows {
        if !fits_body(subject, row) {
            return false;
        }
    }
    true
}

fn has_name(subject: &Subject, lock: LockNo, name: &[u8]) -> bool
    requires { lock.0 < slot_count subject.now }
    ensures { IsTrue result ↔ HasName subject.now lock.0 name.now }
{
    if name.len() > u32::MAX as usize {
        return false;
    }
    for at in 0..name.len() {
        if subject.lock_byte(lock, at as u32) != Some(name[at]) {
            return false;
        }
    }
    subject.lock_byte(lock, name.len() as u32).is_none()
}

fn fits_lock(subject: &Subject, lock: LockNo, part: &LockPart) -> bool
    requires { lock.0 < slot_count subject.now }
    ensures { IsTrue result ↔ FitsLock subject.now lock.0 part.now }
{
    if !has_name(subject, lock, &part.name) {
        return false;
    }
    if !fit_views(subject, &part.views) {
        return false;
    }
    fit_bodies(subject, &part.bodies)
}

fn fits_at(subject: &Subject, parts: &[LockPart], lock: u32) -> bool
    ensures { IsTrue result ↔ FitsAt subject.now lock (slice_get parts.now lock) }
{
    let count = subject.lock_count();
    if lock as usize >= parts.len() {
        return count <= lock;
    }
    lock < count && fits_lock(subject, LockNo(lock), &parts[lock as usize])
}

/// The first number of which the parts do not fit the lock fields.
pub fn first_unfit(subject: &Subject, parts: &[LockPart]) -> Option<u32>
    ensures { IsFirstUnfit subject.now parts.now result }
{
    for lock in 0..subject.lock_count() + 1 {
        if !fits_at(subject, parts, lock) {
            return Some(lock);
        }
    }
    None
}
