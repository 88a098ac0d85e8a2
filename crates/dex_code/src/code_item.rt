//! Reading code items.
ghost use Rattle.std.specs.Prelude.{◌≡◌, ℕ, ◌↔◌, List, Ok, ◌+◌, ◌*◌, ◌≤◌, ◌<◌, length, IfOk};
ghost use Rattle.dex_tables.specs.Content.{AreTablesOf};
ghost use Rattle.dex_tables.specs.Reading.{IsReading, list_below};
ghost use Rattle.dex_code.specs.CodeItem.{code_unit};
ghost use Rattle.dex_code.specs.Content.{IsCodeOf, CodeContent};
ghost use Rattle.dex_tables.specs.Reading.{Gives};
ghost use Rattle.dex_code.specs.Reading.{front_at, code_at};

use crate::code::CodeItem;
use crate::front::{FRONT_SIZE, ins_from, len_from, outs_from, registers_from};
use crate::tries::read_tries;
use dex_bytes::{DexFault, u16_from};
use dex_tables::{Stop, Tables};
use ns_base::{Counted, limit};
use std::alloc::{AllocError, Global};

/// The code item at an offset. The first fault is named, in this order: the front, the units, the rows of
/// the tries with their ranges, all lists of the handler part, and then try by try its handlers, each
/// type before its address. A list that no try names need only be there whole. Tries may share a list;
/// its handlers then count for each of them.
pub fn read_code(
    alloc: Global,
    bytes: &[u8],
    tables: &Tables,
    off: u32,
) -> Result<CodeItem, DexFault>
    requires tables { AreTablesOf bytes.now tables.now }
    requires len { length bytes.now ≤ 4294967295 }
    ensures exact { IsReading result (code_at bytes.now off) }
    ensures content { IfOk result (λ code. IsCodeOf bytes.now off code) }
{
    match read_item(alloc, bytes, tables, off as usize) {
        Ok(code) => Ok(code),
        Err(Stop::Fault(fault)) => Err(fault),
        Err(Stop::Memory) => Err(DexFault::Memory),
    }
}

/// Reading in order gives exactly the code item that stands there by offsets, where it is sound and
/// within the limits.
pub fn code_law()
    ensures { (bs : List ℕ) (off : ℕ) (code : CodeContent) → (code_at bs off ≡ Ok code) ↔ IsCodeOf bs off code }
{}

#[tactic(auto, unfolding(crate::specs::Reading::code_at))]
fn read_item(alloc: Global, bytes: &[u8], tables: &Tables, at: usize) -> Result<CodeItem, Stop>
    requires tables { AreTablesOf bytes.now tables.now }
    requires len { length bytes.now ≤ 4294967295 }
    ensures { Gives (λ c. c) result (code_at bytes.now at) }
{
    let len = check_front(bytes, at)?;
    let units = read_units(alloc, bytes, at, len)?;
    let (tries, handlers) = read_tries(alloc, bytes, tables, at)?;
    Ok(CodeItem {
        registers: registers_from(bytes, at),
        ins: ins_from(bytes, at),
        outs: outs_from(bytes, at),
        units,
        tries,
        handlers,
    })
}

// The number of units, where the front and the units lie in the file.
#[tactic(auto, unfolding(crate::specs::Reading::front_at))]
fn check_front(bytes: &[u8], at: usize) -> Result<u32, DexFault>
    requires { length bytes.now ≤ 4294967295 }
    ensures value { result ≡ front_at bytes.now at }
    ensures in_file { IfOk result (λ len. at + 16 + 2 * len ≤ length bytes.now) }
{
    if bytes.len() < FRONT_SIZE || bytes.len() - FRONT_SIZE < at {
        return Err(DexFault::Short(at));
    }
    if registers_from(bytes, at) < ins_from(bytes, at) {
        return Err(DexFault::Registers(at));
    }
    let len = len_from(bytes, at);
    if bytes.len() < at + FRONT_SIZE + 2 * len as usize {
        return Err(DexFault::Short(at + FRONT_SIZE));
    }
    if u64::from(len) > limit(Counted::Units) {
        return Err(DexFault::Limit(Counted::Units));
    }
    Ok(len)
}

fn read_units(alloc: Global, bytes: &[u8], at: usize, len: u32) -> Result<Vec<u16>, AllocError>
    requires { at + 16 + 2 * len ≤ length bytes.now }
    ensures { IfOk result (λ units. units.items ≡ list_below (code_unit bytes.now at) len) }
{
    let mut units = Vec::with_capacity(alloc, len as usize)?;
    for k in 0..len {
        units.push(unit_from(bytes, at, k))?;
    }
    Ok(units)
}

#[tactic(auto, unfolding(crate::specs::CodeItem::code_unit))]
fn unit_from(bytes: &[u8], at: usize, k: u32) -> u16
    requires { at + 16 + 2 * k + 2 ≤ length bytes.now }
    ensures { result ≡ code_unit bytes.now at k }
{
    u16_from(bytes, at + FRONT_SIZE + 2 * k as usize)
}
