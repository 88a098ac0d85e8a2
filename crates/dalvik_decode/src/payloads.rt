//! Payloads: the tables of the switches and the data of an array.
ghost use Rattle.std.specs.Prelude.{◌≡◌, ◌<◌, ◌≤◌, ◌+◌, ◌*◌, ◌^◌, ◌⊎◌, ◌↔◌, length, IfOk, IfErr, IfSome};
ghost use Rattle.dalvik_decode.specs.Payloads.{content_at, content_of, content_under, head_from, numbers_at, payload_len_at, units_under};

use crate::faults::CodeFault;
use crate::ident;
use crate::operands::word;
use std::alloc::{AllocError, Global};

/// What a payload holds. A target counts units from the pc of the switch that leads there.
#[derive(Debug, PartialEq, Eq, Drop)]
pub enum Payload {
    /// The targets of the keys from `first` on.
    Packed { first: i32, targets: Vec<i32> },
    /// Each key's target stands at the key's place.
    Sparse { keys: Vec<i32>, targets: Vec<i32> },
    /// `count` elements of `width` bytes each.
    Array { width: u16, count: u32 },
}

/// What the first units of a payload say of the rest.
#[derive(Clone, Copy)]
pub enum Head {
    Packed { size: u16 },
    Sparse { size: u16 },
    Array { width: u16, count: u32 },
}

/// What begins in these units, or none where no payload does or its size is past the end.
#[tactic(auto, unfolding(crate::specs::Payloads::head_from))]
fn read_head(code: &[u16]) -> Option<Head>
    requires { 0 < length code.now }
    ensures { result ≡ head_from code.now }
{
    match code[0] {
        ident::PACKED_SWITCH_PAYLOAD if code.len() > 1 => Some(Head::Packed { size: code[1] }),
        ident::SPARSE_SWITCH_PAYLOAD if code.len() > 1 => Some(Head::Sparse { size: code[1] }),
        ident::FILL_ARRAY_DATA_PAYLOAD if code.len() > 3 => {
            Some(Head::Array {
                width: code[1],
                count: word(code, 2),
            })
        }
        _ => None,
    }
}

/// All the units of the payload.
fn whole_len(head: Head) -> u64
    ensures units { result ≡ units_under head }
    ensures bounds { (1 < result) × (result < 2 ^ 48) }
{
    match head {
        Head::Packed { size } => 2 * size as u64 + 4,
        Head::Sparse { size } => 4 * size as u64 + 2,
        Head::Array { width, count } => (count as u64 * width as u64 + 1) / 2 + 4,
    }
}

/// How many units the payload at a pc takes, or none where no payload begins there or its size is
/// past the end. The payload itself may end past the end.
pub fn payload_len(units: &[u16], pc: u32) -> Option<u64>
    requires { pc < length units.now }
    ensures units { result ≡ payload_len_at units.now pc }
    ensures bounds { IfSome result (λ count. (1 < count) × (count < 2 ^ 48)) }
{
    let (_, code) = units.split_at(pc as usize);
    read_head(code).map(whole_len)
}

/// Signed numbers of two units each.
#[tactic(auto, using(crate::proofs::Numbers::numbers_more), unfolding(crate::specs::Payloads::numbers_at))]
fn read_numbers(
    alloc: Global,
    code: &[u16],
    place: usize,
    count: usize,
) -> Result<Vec<i32>, AllocError>
    requires { place + 2 * count ≤ length code.now }
    ensures { IfOk result (λ numbers. numbers.items ≡ numbers_at code.now place count) }
{
    let mut numbers = Vec::with_capacity(alloc, count)?;
    for k in 0..count {
        numbers.push(word(code, place + 2 * k).cast_signed())?;
    }
    Ok(numbers)
}

/// What a payload holds behind its head.
fn read_under(alloc: Global, head: Head, code: &[u16]) -> Result<Payload, AllocError>
    requires { units_under head ≤ length code.now }
    ensures { IfOk result (λ payload. content_of payload ≡ content_under head code.now) }
{
    match head {
        Head::Packed { size } => {
            let targets = read_numbers(alloc, code, 4, size as usize)?;
            Ok(Payload::Packed {
                first: word(code, 2).cast_signed(),
                targets,
            })
        }
        Head::Sparse { size } => {
            let keys = read_numbers(alloc, code, 2, size as usize)?;
            let targets = read_numbers(alloc, code, 2 + 2 * size as usize, size as usize)?;
            Ok(Payload::Sparse { keys, targets })
        }
        Head::Array { width, count } => Ok(Payload::Array { width, count }),
    }
}

/// The payload at a pc. `BadPayload` says that none stands there or that the units end inside it.
#[tactic(auto, unfolding(crate::specs::Payloads::content_at))]
pub fn read_payload(alloc: Global, units: &[u16], pc: u32) -> Result<Payload, CodeFault>
    requires { pc < length units.now }
    ensures read { IfOk result (λ payload. content_at units.now pc ≡ Some (content_of payload)) }
    ensures bad { (result ≡ Err (CodeFault.BadPayload pc)) ↔ (content_at units.now pc ≡ None) }
    ensures faults { IfErr result (λ fault. (fault ≡ CodeFault.BadPayload pc) ⊎ (fault ≡ CodeFault.Memory)) }
{
    let (_, code) = units.split_at(pc as usize);
    let Some(head) = read_head(code) else {
        return Err(CodeFault::BadPayload(pc))
    };
    if (code.len() as u64) < whole_len(head) {
        return Err(CodeFault::BadPayload(pc));
    }
    Ok(read_under(alloc, head, code)?)
}
