//! The header of a DEX file.
ghost use Rattle.std.specs.Prelude.{◌≡◌, ℕ, ◌+◌, ◌≤◌, ◌↔◌, List, length, IsOk};
ghost use Rattle.dex_bytes.specs.Header.{part_at, header_of, front_fault_of, has_checksum, has_signature, header_at, IsHeader};

use crate::checksum::adler32;
use crate::fault::DexFault;
use crate::layout::{Header, Part};
use crate::numbers::u32_from;
use sha1::{DIGEST_LEN, Sha1};

/// The size of the header in bytes, which the header itself gives too.
pub const HEADER_SIZE: usize = 0x70;

const ENDIAN_TAG: u32 = 0x1234_5678;

// Where the fields stand, in bytes from the front.
const VERSION_AT: usize = 4;

const CHECKSUM_AT: usize = 8;

const SIGNATURE_AT: usize = 12;

const FILE_SIZE_AT: usize = 32;

const HEADER_SIZE_AT: usize = 36;

const ENDIAN_TAG_AT: usize = 40;

const STRINGS_AT: usize = 56;

const TYPES_AT: usize = 64;

const PROTOS_AT: usize = 72;

const FIELDS_AT: usize = 80;

const METHODS_AT: usize = 88;

const CLASSES_AT: usize = 96;

fn part_from(bytes: &[u8], at: usize) -> Part
    requires { at + 8 ≤ length bytes.now }
    ensures { result ≡ part_at bytes.now at }
{
    Part {
        size: u32_from(bytes, at),
        off: u32_from(bytes, at + 4),
    }
}

/// Where the header says that the tables stand.
pub fn header_from(bytes: &[u8]) -> Header
    requires { 112 ≤ length bytes.now }
    ensures { result ≡ header_of bytes.now }
{
    Header {
        strings: part_from(bytes, STRINGS_AT),
        types: part_from(bytes, TYPES_AT),
        protos: part_from(bytes, PROTOS_AT),
        fields: part_from(bytes, FIELDS_AT),
        methods: part_from(bytes, METHODS_AT),
        classes: part_from(bytes, CLASSES_AT),
    }
}

/// The first of the header's checks that fails, in the order size, magic, version, header size,
/// endianness, file size. The two sums are not looked at.
#[tactic(auto, unfolding(crate::specs::Header::front_fault_of))]
pub fn front_fault(bytes: &[u8]) -> Option<DexFault>
    ensures { result ≡ front_fault_of bytes.now }
{
    if bytes.len() < HEADER_SIZE {
        return Some(DexFault::Short(0));
    }
    if !(&bytes[..VERSION_AT] == b"dex\n".as_slice() && bytes[7] == 0) {
        return Some(DexFault::Magic);
    }
    if &bytes[VERSION_AT..7] != b"035".as_slice() {
        return Some(DexFault::Version);
    }
    if u32_from(bytes, HEADER_SIZE_AT) as usize != HEADER_SIZE {
        return Some(DexFault::HeaderSize);
    }
    if u32_from(bytes, ENDIAN_TAG_AT) != ENDIAN_TAG {
        return Some(DexFault::Endian);
    }
    if u32_from(bytes, FILE_SIZE_AT) as usize != bytes.len() {
        return Some(DexFault::FileSize);
    }
    None
}

/// Where the header says that the tables stand, or the first of its checks that fails: those of
/// `front_fault`, then the checksum, then the signature.
#[tactic(auto, using(crate::proofs::Faults::whole_header), unfolding(crate::specs::Header::header_at))]
pub fn read_header(bytes: &[u8]) -> Result<Header, DexFault>
    ensures { result ≡ header_at bytes.now }
{
    if let Some(fault) = front_fault(bytes) {
        return Err(fault);
    }
    if !is_checksum_right(bytes) {
        return Err(DexFault::Checksum);
    }
    if !is_signature_right(bytes) {
        return Err(DexFault::Signature);
    }
    Ok(header_from(bytes))
}

fn is_checksum_right(bytes: &[u8]) -> bool
    requires { 112 ≤ length bytes.now }
    ensures { result ≡ has_checksum bytes.now }
{
    let (_, summed) = bytes.split_at(SIGNATURE_AT);
    adler32(summed) == u32_from(bytes, CHECKSUM_AT)
}

fn is_signature_right(bytes: &[u8]) -> bool
    requires { 112 ≤ length bytes.now }
    ensures { result ≡ has_signature bytes.now }
{
    let (signature, _) = bytes.split_at(SIGNATURE_AT).1.split_at(DIGEST_LEN);
    let (_, signed) = bytes.split_at(FILE_SIZE_AT);
    Sha1::digest(signed).as_slice() == signature
}

/// A header is read exactly where it passes each check.
pub fn header_laws()
    ensures { (bs : List ℕ) → IsOk (header_at bs) ↔ IsHeader bs }
{}
