//! The verdict on a certificate.
ghost use Rattle.std.specs.Prelude.{◌≡◌, ◌↔◌, ◌<◌, ◌≤◌, ◌*◌, ℕ, IsTrue, length, slice_get};
ghost use Rattle.app_model.specs.Subject.{slot_count};
ghost use Rattle.cert_facts.specs.Cases.{IsCase};
ghost use Rattle.cert_check.specs.Digests.{IsFirstDigest};
ghost use Rattle.cert_check.specs.Firsts.{IsFirstRule, IsFirstBreach};
ghost use Rattle.cert_facts.specs.Moves.{AreMoves};
ghost use Rattle.cert_facts.specs.Shape.{FitsAt};
ghost use Rattle.cert_check.specs.Verdict.{rule_number, IsVerdict, IsAccepted};

use crate::places::first_of;
use crate::policy::first_unmet;
use crate::verdict::{Checked, Rule};
use app_model::Subject;
use cert_facts::{Task, first_unfit, note_all};
use certificate::{Certificate, LockPart};
use ns_base::LockNo;

/// Where a rule leads out of the facts of a lock field.
#[derive(Clone, Copy)]
pub struct Breach {
    pub lock: u32,
    pub rule: Rule,
    pub a: u32,
    pub b: u32,
    pub c: u32,
}

// The rules in the order in which they are tried.
fn rule_at(number: u8) -> Rule
    requires { number < 11 }
    ensures { rule_number result ≡ number }
{
    match number {
        0 => Rule::V1,
        1 => Rule::V2,
        2 => Rule::V3,
        3 => Rule::V4,
        4 => Rule::V5,
        5 => Rule::I1,
        6 => Rule::I2,
        7 => Rule::I3,
        8 => Rule::C1,
        9 => Rule::C2,
        _ => Rule::C3,
    }
}

fn first_rule(task: &Task, moves: &[u8]) -> Option<Breach>
    requires { AreMoves task.now (8 * length task.now.subject.list) moves.now }
    ensures { IsFirstRule task.now result }
{
    for number in 0..11u8 {
        let rule = rule_at(number);
        if let Some(found) = first_of(rule, task, moves) {
            return Some(Breach {
                lock: task.lock().0,
                rule,
                a: found.a,
                b: found.b,
                c: found.c,
            });
        }
    }
    None
}

fn first_of_lock(subject: &Subject, lock: LockNo, part: &LockPart) -> Option<Breach>
    requires { IsCase (record { subject = subject.now; lock = lock.0; part = part.now }) }
    ensures { IsFirstRule (record { subject = subject.now; lock = lock.0; part = part.now }) result }
{
    subject.told();
    let task = Task::new(subject, lock, part);
    let mut moves = [0u8; 2048];
    note_all(&task, &mut moves);
    first_rule(&task, &moves)
}

fn first_breach(subject: &Subject, parts: &[LockPart]) -> Option<Breach>
    requires { (l : ℕ) → FitsAt subject.now l (slice_get parts.now l) }
    ensures { IsFirstBreach subject.now parts.now (slot_count subject.now) result }
{
    subject.told();
    for lock in 0..subject.lock_count() {
        let found = first_of_lock(subject, LockNo(lock), &parts[lock as usize]);
        if found.is_some() {
            return found;
        }
    }
    None
}

fn is_digest(own: &[u8; 20], other: &[u8; 20]) -> bool
    ensures { IsTrue result ↔ (own.now ≡ other.now) }
{
    own == other
}

fn is_same(own: &[[u8; 20]], dex: &[[u8; 20]], file: usize) -> bool
    ensures { IsTrue result ↔ (slice_get own.now file ≡ slice_get dex.now file) }
{
    if file >= own.len() {
        return file >= dex.len();
    }
    if file >= dex.len() {
        return false;
    }
    is_digest(&own[file], &dex[file])
}

// The first file whose digests differ, or that one side alone has.
fn first_digest(own: &[[u8; 20]], dex: &[[u8; 20]]) -> Option<u32>
    requires { length dex.now ≤ 16 }
    ensures { IsFirstDigest own.now dex.now result }
{
    for file in 0..17u32 {
        if !is_same(own, dex, file as usize) {
            return Some(file);
        }
    }
    None
}

/// The first cause for which a certificate is refused, for a subject, the digest of its component list and those of its
/// DEX files; or that it is valid: then its facts are closed under the rules, and meet the policy.
pub fn check(subject: &Subject, list: &[u8; 20], dex: &[[u8; 20]], cert: &Certificate) -> Checked
    requires { length dex.now ≤ 16 }
    ensures verdict { IsVerdict subject.now list.now dex.now cert.now result }
    ensures valid { (result ≡ Checked.Valid) ↔ IsAccepted subject.now list.now dex.now cert.now }
{
    subject.told();
    if !is_digest(&cert.list, list) {
        return Checked::ListDigest;
    }
    if let Some(file) = first_digest(&cert.dex, dex) {
        return Checked::DexDigest(file);
    }
    if let Some(lock) = first_unfit(subject, &cert.locks) {
        return Checked::Shape(lock);
    }
    if let Some(breach) = first_breach(subject, &cert.locks) {
        return Checked::Broken {
            rule: breach.rule,
            lock: breach.lock,
            a: breach.a,
            b: breach.b,
            c: breach.c,
        };
    }
    match first_unmet(subject, &cert.locks) {
        Some(violation) => Checked::Unmet {
            component: violation.component,
            callback: violation.callback,
            lock: violation.lock,
            status: violation.status,
        },
        None => Checked::Valid,
    }
}
