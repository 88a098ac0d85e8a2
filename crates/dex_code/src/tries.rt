//! Reading the tries of a code item.
ghost use Rattle.std.specs.Prelude.{◌≡◌, ◌+◌, ◌≤◌, ◌<◌, ◌^◌, length, vec_len, OnOk, IfOk};
ghost use Rattle.ns_base.specs.Answers.{limit_of};
ghost use Rattle.dex_tables.specs.Content.{AreTablesOf};
ghost use Rattle.dex_code.specs.CodeItem.{code_tries, try_place, covered_before};
ghost use Rattle.dex_code.specs.HandlerPart.{try_list};
ghost use Rattle.dex_code.specs.Order.{IsRising};
ghost use Rattle.dex_tables.specs.Reading.{Gives};
ghost use Rattle.dex_code.specs.Reading.{is_range_bad, range_at, ranges_at, bounds_of, with_try, rows_at, tries_at};

use crate::code::{Handler, TryRow};
use crate::front::{
    TRY_SIZE, handlers_place_from, len_from, tries_from, try_count_from, try_offset_from,
    try_place_from, try_start_from,
};
use crate::handlers::{Bounds, add_list, begins_list, read_starts};
use dex_bytes::DexFault;
use dex_tables::{Slice, Stop, Tables};
use ns_base::Counted;
use std::alloc::Global;

/// The tries of the code item at a place, and their handlers.
#[tactic(auto, unfolding(crate::specs::Reading::tries_at))]
pub fn read_tries(
    alloc: Global,
    bytes: &[u8],
    tables: &Tables,
    at: usize,
) -> Result<(Vec<TryRow>, Vec<Handler>), Stop>
    requires tables { AreTablesOf bytes.now tables.now }
    requires len { length bytes.now ≤ 4294967295 }
    requires front { at + 16 ≤ length bytes.now }
    ensures { Gives (λ r. record { tries = r.0.items; handlers = r.1.items }) result (tries_at bytes.now at) }
{
    let count = u32::from(tries_from(bytes, at));
    if count == 0 {
        return Ok((Vec::new(alloc), Vec::new(alloc)));
    }
    check_ranges(bytes, at, count)?;
    let starts = read_starts(alloc, bytes, handlers_place_from(bytes, at))?;
    let bounds = Bounds {
        types: tables.types.len(),
        units: len_from(bytes, at),
    };
    read_rows(alloc, bytes, bounds, at, count, &starts)
}

// The rows of so many tries lie in the file, and their ranges are good.
fn check_ranges(bytes: &[u8], at: usize, count: u32) -> Result<u32, DexFault>
    requires front { at + 16 ≤ length bytes.now }
    requires len { length bytes.now ≤ 4294967295 }
    ensures value { result ≡ ranges_at bytes.now at count }
    ensures in_file { OnOk result (0 < count → try_place bytes.now at count ≤ length bytes.now) }
{
    let mut checked = 0;
    for t in 0..count {
        checked = check_range(bytes, at, t)?;
    }
    Ok(checked)
}

#[tactic(auto, using(crate::proofs::TryRows::try_place_next), unfolding(crate::specs::Reading::range_at))]
fn check_range(bytes: &[u8], at: usize, t: u32) -> Result<u32, DexFault>
    requires front { at + 16 ≤ length bytes.now }
    requires len { length bytes.now ≤ 4294967295 }
    requires below { t < 4294967295 }
    requires before { 0 < t → try_place bytes.now at t ≤ length bytes.now }
    ensures value { result ≡ range_at bytes.now at t }
    ensures in_file { OnOk result (try_place bytes.now at (t + 1) ≤ length bytes.now) }
{
    let place = try_place_from(bytes, at, t);
    if bytes.len() < place + TRY_SIZE {
        return Err(DexFault::Short(place));
    }
    if has_bad_range(bytes, at, t) {
        return Err(DexFault::TryRange(place));
    }
    Ok(t + 1)
}

// The range of a try is empty, ends past the units or begins before the last one ended.
fn has_bad_range(bytes: &[u8], at: usize, t: u32) -> bool
    requires front { at + 16 ≤ length bytes.now }
    requires len { length bytes.now ≤ 4294967295 }
    requires row { try_place bytes.now at t + 8 ≤ length bytes.now }
    ensures { result ≡ is_range_bad bytes.now at t }
{
    let start = u64::from(try_start_from(bytes, at, t));
    let count = u64::from(try_count_from(bytes, at, t));
    let len = u64::from(len_from(bytes, at));
    count == 0 || len < start + count || start < covered_from(bytes, at, t)
}

// The first unit behind all earlier tries.
#[tactic(auto, using(crate::proofs::TryRows::covered_next, crate::proofs::TryRows::try_place_before))]
fn covered_from(bytes: &[u8], at: usize, t: u32) -> u64
    requires front { at + 16 ≤ length bytes.now }
    requires len { length bytes.now ≤ 4294967295 }
    requires row { try_place bytes.now at t ≤ length bytes.now }
    ensures { result ≡ covered_before bytes.now at t }
{
    if t == 0 {
        return 0;
    }
    u64::from(try_start_from(bytes, at, t - 1)) + u64::from(try_count_from(bytes, at, t - 1))
}

// So many tries, where these are the beginnings of lists.
fn read_rows(
    alloc: Global,
    bytes: &[u8],
    bounds: Bounds,
    at: usize,
    count: u32,
    starts: &[usize],
) -> Result<(Vec<TryRow>, Vec<Handler>), Stop>
    requires front { at + 16 ≤ length bytes.now }
    requires len { length bytes.now ≤ 4294967295 }
    requires bounds { bounds ≡ bounds_of bytes.now at }
    requires rows { try_place bytes.now at count ≤ length bytes.now }
    requires rising { IsRising starts.now }
    ensures { Gives (λ r. record { tries = r.0.items; handlers = r.1.items }) result (rows_at bytes.now at starts.now count) }
{
    let mut tries = Vec::with_capacity(alloc, count as usize)?;
    let mut handlers = Vec::new(alloc);
    for t in 0..count {
        add_try(bytes, bounds, at, t, starts, &mut tries, &mut handlers)?;
    }
    Ok((tries, handlers))
}

// One try more.
#[tactic(auto, unfolding(crate::specs::Reading::with_try))]
fn add_try(
    bytes: &[u8],
    bounds: Bounds,
    at: usize,
    t: u32,
    starts: &[usize],
    tries: &mut Vec<TryRow>,
    handlers: &mut Vec<Handler>,
) -> Result<(), Stop>
    requires front { at + 16 ≤ length bytes.now }
    requires len { length bytes.now ≤ 4294967295 }
    requires bounds { bounds ≡ bounds_of bytes.now at }
    requires row { try_place bytes.now at t + 8 ≤ length bytes.now }
    requires rising { IsRising starts.now }
    requires room { vec_len handlers.old ≤ limit_of Counted.Handlers }
    ensures value { Gives (λ _. record { tries = tries.new.items; handlers = handlers.new.items }) result (with_try bytes.now at starts.now t (record { tries = tries.old.items; handlers = handlers.old.items })) }
    ensures len { OnOk result (vec_len handlers.new ≤ limit_of Counted.Handlers) }
{
    let list = try_list_from(bytes, at, t);
    if !begins_list(starts, list) {
        return Err(Stop::Fault(DexFault::HandlerOffset(try_place_from(bytes, at, t))));
    }
    let before = handlers.len();
    add_list(bytes, bounds, t, list, handlers)?;
    tries.push(TryRow {
        start: try_start_from(bytes, at, t),
        count: u32::from(try_count_from(bytes, at, t)),
        handlers: Slice {
            at: before as u32,
            len: (handlers.len() - before) as u32,
        },
    })?;
    Ok(())
}

// Where the list that a try names should begin.
fn try_list_from(bytes: &[u8], at: usize, t: u32) -> usize
    requires front { at + 16 ≤ length bytes.now }
    requires len { length bytes.now ≤ 4294967295 }
    requires row { try_place bytes.now at t + 8 ≤ length bytes.now }
    ensures { result ≡ try_list bytes.now at t }
{
    handlers_place_from(bytes, at) + usize::from(try_offset_from(bytes, at, t))
}
