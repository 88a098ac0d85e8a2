//! The answer of `verify` to a subject in scope: the certificate of its least solutions, or the reports of its violations.
ghost use Rattle.std.specs.Prelude.{◌<◌, ◌+◌, length, map, Ok, IfOk, OnOk};
ghost use Rattle.app_model.specs.Subject.{SubjectParts, slot_count};
ghost use Rattle.cert_laws.specs.Solved.{IsSolved};
ghost use Rattle.derivation.specs.AllReports.{AreGathered};
ghost use Rattle.one_scope.specs.Alike.{AreAlike};
ghost use Rattle.nosleep.specs.Events.{AreHelds};
ghost use Rattle.nosleep.specs.Judged.{IsVerified};
ghost use Rattle.nosleep.specs.Certifying.{AreShown, IsSolvedTo, IsWritten};

use crate::checking::digests_of;
use crate::judging::{Judged, violations_of};
use crate::refusing::{Answer, found_text, over};
use app_model::Subject;
use cert_laws::{accepted_certificates, alike_verdicts, written_certificates};
use certificate::{Certificate, LockPart, lock_part, write_certificate};
use derivation::{derive_more, order_reports};
use ns_base::{Counted, Exit, LockNo, OutOfMemory, limit};
use report_laws::alike_reports;
use report_path::Report;
use report_text::reports_text;
use run_model::tagged_soundness;
use sha1::Sha1;
use std::alloc::{AllocError, Global};
use view_solver::solve_lock;

/// What the least solutions of lock fields give: of each its part of the certificate, and the reports of its violations.
#[derive(Drop)]
pub struct Solved {
    pub parts: Vec<LockPart>,
    pub reports: Vec<Report>,
}

// The part of one lock field, whose reports are added. Its solution and its log are let go then.
fn solve_one(
    alloc: Global,
    subject: &Subject,
    lock: LockNo,
    reports: &mut Vec<Report>,
) -> Result<LockPart, OutOfMemory>
    requires lock { lock.0 < slot_count subject.now }
    requires before { AreGathered subject.now lock.0 reports.old.items }
    ensures part { IfOk result (IsSolved subject.now lock.0) }
    ensures reports { OnOk result (AreGathered subject.now (lock.0 + 1) reports.new.items) }
{
    subject.told();
    let solution = solve_lock(alloc, subject, lock)?;
    let part = lock_part(alloc, subject, lock, &solution)?;
    derive_more(alloc, subject, lock, &solution, reports)?;
    Ok(part)
}

fn solve_all(alloc: Global, subject: &Subject) -> Result<Solved, AllocError>
    ensures { IfOk result (IsSolvedTo subject.now (slot_count subject.now)) }
{
    subject.told();
    written_certificates();
    let mut parts = Vec::new(alloc);
    let mut reports = Vec::new(alloc);
    for lock in 0..subject.lock_count() {
        match solve_one(alloc, subject, LockNo(lock), &mut reports) {
            Ok(part) => parts.push(part)?,
            Err(OutOfMemory) => return Err(AllocError),
        }
    }
    Ok(Solved { parts, reports })
}

/// The answer of `verify` to a subject in scope, from a list and DEX files of these bytes.
pub fn certify(
    alloc: Global,
    subject: &Subject,
    list: &[u8],
    files: &[Vec<u8>],
) -> Result<Judged, AllocError>
    requires { 0 < length files.now }
    ensures judged { IfOk result (λ j. (y : SubjectParts) → AreAlike subject.now y → IsVerified list.now (map (λ bytes. bytes.items) files.now) y j.answer.text.items j.answer.exit) }
    ensures found { IfOk result (λ j. AreHelds (Ok subject.now) j.answer.exit j.found.items) }
{
    subject.told();
    tagged_soundness();
    alike_verdicts();
    written_certificates();
    accepted_certificates();
    alike_reports();
    let solved = solve_all(alloc, subject)?;
    let mut reports = solved.reports;
    order_reports(subject, &mut reports);
    let found = violations_of(alloc, &reports)?;
    if !found.is_empty() {
        let answer = show(alloc, subject, &reports)?;
        return Ok(Judged { answer, found });
    }
    let cert = Certificate {
        list: Sha1::digest(list),
        dex: digests_of(alloc, files)?,
        locks: solved.parts,
    };
    let answer = write(alloc, &cert)?;
    Ok(Judged { answer, found })
}

// The answer to some violations: their reports.
fn show(alloc: Global, subject: &Subject, reports: &[Report]) -> Result<Answer, AllocError>
    ensures { IfOk result (λ a. AreShown subject.now.app subject.now.list reports.now a.text.items a.exit) }
{
    Ok(Answer {
        exit: Exit::Reports,
        text: found_text(reports_text(alloc, subject, reports))?,
    })
}

// The text of a certificate, where it is short enough.
fn write(alloc: Global, cert: &Certificate) -> Result<Answer, AllocError>
    ensures { IfOk result (λ a. IsWritten cert.now a.text.items a.exit) }
{
    let Ok(text) = write_certificate(alloc, cert) else {
        return Err(AllocError);
    };
    if text.len() as u64 > limit(Counted::CertBytes) {
        return over(alloc, Counted::CertBytes);
    }
    Ok(Answer {
        exit: Exit::Accept,
        text,
    })
}
