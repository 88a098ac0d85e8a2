//! The answer of `check` to the bytes of a certificate.
ghost use Rattle.std.specs.Prelude.{◌≡◌, ◌≤◌, length, map, IfOk};
ghost use Rattle.app_model.specs.Subject.{SubjectParts};
ghost use Rattle.one_scope.specs.Alike.{AreAlike};
ghost use Rattle.sha1.specs.Sha1.{sha1};
ghost use Rattle.nosleep.specs.Judged as spec;
ghost use Rattle.nosleep.specs.Judged.{IsChecked, IsVerdictOn};

use crate::refusing::{Answer, refuse_certificate};
use app_model::Subject;
use cert_check::{Checked, check};
use cert_laws::alike_verdicts;
use certificate::{Certificate, read_certificate};
use ns_base::{Exit, OutOfMemory};
use report_text::checked_text;
use run_model::tagged_soundness;
use sha1::Sha1;
use std::alloc::{AllocError, Global};

/// The digests of files.
pub fn digests_of(alloc: Global, files: &[Vec<u8>]) -> Result<Vec<[u8; 20]>, AllocError>
    ensures { IfOk result (λ digests. digests.items ≡ map sha1 (map (λ bytes. bytes.items) files.now)) }
{
    let mut digests = Vec::with_capacity(alloc, files.len())?;
    for i in 0..files.len() {
        digests.push(Sha1::digest(&files[i]))?;
    }
    Ok(digests)
}

/// The answer to the bytes of a certificate, for a subject in scope and the list and DEX files from which it is.
pub fn check_bytes(
    alloc: Global,
    subject: &Subject,
    cert: &[u8],
    list: &[u8],
    files: &[Vec<u8>],
) -> Result<Answer, AllocError>
    requires { length files.now ≤ 16 }
    ensures { IfOk result (λ a. (y : SubjectParts) → AreAlike subject.now y → IsChecked cert.now list.now (map (λ bytes. bytes.items) files.now) y a.text.items a.exit) }
{
    match read_certificate(alloc, cert) {
        Ok(cert) => check_read(alloc, subject, &cert, list, files),
        Err(fault) => refuse_certificate(alloc, fault),
    }
}

// The answer to a certificate.
fn check_read(
    alloc: Global,
    subject: &Subject,
    cert: &Certificate,
    list: &[u8],
    files: &[Vec<u8>],
) -> Result<Answer, AllocError>
    requires { length files.now ≤ 16 }
    ensures { IfOk result (λ a. (y : SubjectParts) → AreAlike subject.now y → IsVerdictOn cert.now list.now (map (λ bytes. bytes.items) files.now) y a.text.items a.exit) }
{
    subject.told();
    tagged_soundness();
    alike_verdicts();
    let digests = digests_of(alloc, files)?;
    let checked = check(subject, &Sha1::digest(list), &digests, cert);
    match checked_text(alloc, subject, &checked) {
        Ok(text) => Ok(Answer {
            exit: exit_of(checked),
            text,
        }),
        Err(OutOfMemory) => Err(AllocError),
    }
}

fn exit_of(checked: Checked) -> Exit
    ensures { result ≡ spec.exit_of checked }
{
    match checked {
        Checked::Valid => Exit::Accept,
        _ => Exit::Broken,
    }
}
