//! The certificate that a text spells, or the first wrong line.
ghost use Rattle.std.specs.Prelude.{ℕ, ◌≡◌, ◌∷◌, ◌+◌, ◌*◌, ◌^◌, [], ◌++◌, length, IfOk, OnOk, option_map, nat_lt, ◌==◌, ◌&&◌, if◌then◌else◌, Some, None};
ghost use Rattle.cert_line.specs.Reading.{pieces};
ghost use Rattle.certificate.specs.Parts.{CertParts};
ghost use Rattle.certificate.specs.Reading.{follow, in_last, add_view, add_body, fresh, pushed, step, is_end, read, outcome, reading};
ghost use Rattle.certificate.specs.Texts.{view_rank, body_rank, IsCert, certificate_text};
ghost use Rattle.certificate.specs.Wrong.{Gives, OnLine, HasFirstWrong};

use crate::parts::{CertFault, Certificate, LockPart};
use cert_line::{BodyRow, Line, ViewRow, cut, line_of};
use std::alloc::{AllocError, Global};

// What stands before the next line: which kind of line, and in a lock the rank of its last row.
#[derive(Clone, Copy)]
enum Place {
    Start,
    Version,
    List,
    Dex,
    Lock(u64),
    End,
}

fn rank_of_view(row: &ViewRow) -> u64
    ensures { result ≡ view_rank row.now }
{
    1 + (256 * u64::from(row.component) + u64::from(row.state))
}

fn rank_in(method: u32, entry: u8) -> u64
    ensures { result ≡ 2 ^ 40 + (1 + (8 * method + entry)) }
{
    (1 << 40) + (1 + (8 * u64::from(method) + u64::from(entry)))
}

fn rank_of_body(row: &BodyRow) -> u64
    ensures { result ≡ body_rank row.now }
{
    rank_in(row.method, row.entry)
}

// The place behind a line that may stand at a place.
#[tactic(auto, unfolding(crate::specs::Reading::follow))]
fn place_behind(locks: usize, place: Place, line: &Line) -> Option<Place>
    ensures { result ≡ follow locks place line.now }
{
    match (place, line) {
        (Place::Start, Line::Version) => Some(Place::Version),
        (Place::Version, Line::ListDigest(_)) => Some(Place::List),
        (Place::List, Line::DexDigest(_)) => Some(Place::Dex),
        (Place::Dex, Line::DexDigest(_)) => Some(Place::Dex),
        (Place::Dex, Line::Lock(name)) => lock_behind(locks, name.number),
        (Place::Lock(_), Line::Lock(name)) => lock_behind(locks, name.number),
        (Place::Lock(rank), Line::View(row)) => above(rank, rank_of_view(row)),
        (Place::Lock(rank), Line::Body(row)) => above(rank, rank_of_body(row)),
        (Place::Dex, Line::End) => Some(Place::End),
        (Place::Lock(_), Line::End) => Some(Place::End),
        _ => None,
    }
}

fn lock_behind(locks: usize, number: u64) -> Option<Place>
    ensures { result ≡ (if number == locks then Some (Place.Lock 0) else None) }
{
    if number == locks as u64 {
        Some(Place::Lock(0))
    } else {
        None
    }
}

fn above(rank: u64, next: u64) -> Option<Place>
    ensures { result ≡ (if nat_lt rank next then Some (Place.Lock next) else None) }
{
    if rank < next {
        Some(Place::Lock(next))
    } else {
        None
    }
}

fn push_view(locks: &mut Vec<LockPart>, row: ViewRow) -> Result<(), AllocError>
    ensures { OnOk result (locks.new.items ≡ in_last (add_view row) locks.old.items) }
{
    let n = locks.len();
    if n > 0 {
        let part = &mut locks[n - 1];
        part.views.push(row)?;
    }
    Ok(())
}

fn push_body(locks: &mut Vec<LockPart>, row: BodyRow) -> Result<(), AllocError>
    ensures { OnOk result (locks.new.items ≡ in_last (add_body row) locks.old.items) }
{
    let n = locks.len();
    if n > 0 {
        let part = &mut locks[n - 1];
        part.bodies.push(row)?;
    }
    Ok(())
}

fn push_lock(alloc: Global, locks: &mut Vec<LockPart>, name: Vec<u8>) -> Result<(), AllocError>
    ensures { OnOk result (locks.new.items ≡ locks.old.items ++ fresh name.items ∷ []) }
{
    let part = LockPart {
        name,
        views: Vec::new(alloc),
        bodies: Vec::new(alloc),
    };
    locks.push(part)?;
    Ok(())
}

// Puts one more line to the certificate.
#[tactic(auto, unfolding(crate::specs::Reading::pushed))]
fn push(alloc: Global, cert: &mut Certificate, line: Line) -> Result<(), AllocError>
    ensures { OnOk result (cert.new ≡ pushed cert.old line) }
{
    match line {
        Line::Version => Ok(()),
        Line::ListDigest(digest) => {
            cert.list = digest;
            Ok(())
        }
        Line::DexDigest(digest) => {
            cert.dex.push(digest)?;
            Ok(())
        }
        Line::Lock(name) => push_lock(alloc, &mut cert.locks, name.shown),
        Line::View(row) => push_view(&mut cert.locks, row),
        Line::Body(row) => push_body(&mut cert.locks, row),
        Line::End => Ok(()),
    }
}

// Puts one more line to the certificate, if it is one that may stand there: the place behind it.
#[tactic(auto, unfolding(crate::specs::Reading::step))]
fn put(
    alloc: Global,
    cert: &mut Certificate,
    place: Place,
    bytes: &[u8],
) -> Result<Option<Place>, AllocError>
    ensures { IfOk result (λ o. option_map (λ p. (cert.new, p)) o ≡ step cert.old place bytes.now) }
{
    match line_of(alloc, bytes)? {
        None => Ok(None),
        Some(line) => match place_behind(cert.locks.len(), place, &line) {
            None => Ok(None),
            Some(next) => {
                push(alloc, cert, line)?;
                Ok(Some(next))
            }
        },
    }
}

fn at_end(place: Place, rest: &[u8]) -> bool
    ensures { result ≡ (is_end place && (length rest.now == 0)) }
{
    match place {
        Place::End => rest.is_empty(),
        _ => false,
    }
}

// Puts all lines to the certificate, up to the first wrong one: its number.
#[tactic(auto, using(crate::proofs::OneLine::read_line, crate::proofs::OneLine::wrong_line), unfolding(crate::specs::Reading::read))]
fn lines(alloc: Global, cert: &mut Certificate, bytes: &[u8]) -> Result<Option<u64>, AllocError>
    ensures { IfOk result (λ o. read cert.old Place.Start 1 (pieces 10 bytes.now) ≡ outcome cert.new o) }
{
    let mut place = Place::Start;
    let mut rest = bytes;
    let mut number: u64 = 1;
    while let Some((line, more)) = cut(rest, b'\n') {
        let Some(next) = put(alloc, cert, place, line)? else {
            return Ok(Some(number));
        };
        place = next;
        rest = more;
        number += 1;
    }
    if at_end(place, rest) {
        Ok(None)
    } else {
        Ok(Some(number))
    }
}

#[tactic(auto, unfolding(crate::specs::Reading::reading))]
fn certificate_in(alloc: Global, bytes: &[u8]) -> Result<Certificate, CertFault>
    ensures { Gives result (reading bytes.now) }
{
    let mut cert = Certificate {
        list: [0; 20],
        dex: Vec::new(alloc),
        locks: Vec::new(alloc),
    };
    match lines(alloc, &mut cert, bytes) {
        Ok(None) => Ok(cert),
        Ok(Some(n)) => Err(CertFault::Line(n)),
        Err(AllocError) => Err(CertFault::Memory),
    }
}

/// The certificate that the bytes spell, all of the bytes, or the first wrong line. It takes a list for each lock and
/// masks as they stand, and nothing else.
pub fn read_certificate(alloc: Global, bytes: &[u8]) -> Result<Certificate, CertFault>
    // What is read is spelled so.
    ensures found { IfOk result (λ c. IsCert c × (bytes.now ≡ certificate_text c)) }
    // What is spelled so is read, unless memory runs out.
    ensures only { (c : CertParts) → IsCert c → bytes.now ≡ certificate_text c → Gives result (Ok c) }
    // The line that is named is the first wrong one.
    ensures line { OnLine result (λ n. HasFirstWrong n bytes.now) }
    // Where a line is the first wrong one, it is named, unless memory runs out.
    ensures named { (n : ℕ) → HasFirstWrong n bytes.now → Gives result (Err n) }
{
    certificate_in(alloc, bytes)
}

/// A text has one certificate, so that what was written is what is read back.
pub fn one_certificate()
    ensures { (c d : CertParts) → IsCert c → IsCert d → certificate_text c ≡ certificate_text d → c ≡ d }
{}
