//! Reading the handler part of a code item.
ghost use Rattle.std.specs.Prelude.{◌≡◌, ◌==◌, ◌+◌, ◌*◌, ◌≤◌, ◌<◌, ◌^◌, length, vec_len, IfOk, OnOk};
ghost use Rattle.std.specs.List.{list_any};
ghost use Rattle.ns_base.specs.Answers.{limit_of};
ghost use Rattle.dex_code.specs.HandlerPart.{catch_alls};
ghost use Rattle.dex_code.specs.Order.{IsRising};
ghost use Rattle.dex_tables.specs.Reading.{Gives};
ghost use Rattle.dex_code.specs.Reading.{list_end_at, lists_at, starts_at, with_address, with_typed, all_typed, with_handlers};

use crate::code::Handler;
use crate::numbers::{numbers_end_from, sleb_from, uleb_from};
use dex_bytes::DexFault;
use dex_tables::Stop;
use ns_base::{Counted, limit};
use std::alloc::Global;

// The number of the type table in faults.
const TYPES: u8 = 1;

/// What a caught type and an address must be below.
#[derive(Clone, Copy)]
pub struct Bounds {
    pub types: usize,
    pub units: u32,
}

/// Where the lists of the handler part begin, in rising order.
#[tactic(auto, unfolding(crate::specs::Reading::starts_at))]
pub fn read_starts(alloc: Global, bytes: &[u8], at: usize) -> Result<Vec<usize>, Stop>
    ensures value { Gives (λ v. v.items) result (starts_at bytes.now at) }
    ensures rising { IfOk result (λ v. IsRising v.items) }
{
    let (count, first) = uleb_from(bytes, at)?;
    let (starts, _) = read_lists(alloc, bytes, first, count)?;
    Ok(starts)
}

// Where so many lists begin, and the place after them.
fn read_lists(
    alloc: Global,
    bytes: &[u8],
    at: usize,
    count: u32,
) -> Result<(Vec<usize>, usize), Stop>
    ensures value { Gives (λ r. record { place = r.1; starts = r.0.items }) result (lists_at bytes.now at count) }
    ensures rising { IfOk result (λ r. IsRising r.0.items) }
{
    let mut starts = Vec::new(alloc);
    let mut end = at;
    for i in 0..count {
        let next = list_end_from(bytes, end)?;
        starts.push(end)?;
        end = next;
    }
    Ok((starts, end))
}

// The place after the list at a place.
#[tactic(auto, unfolding(crate::specs::Reading::list_end_at))]
fn list_end_from(bytes: &[u8], at: usize) -> Result<usize, DexFault>
    ensures value { result ≡ list_end_at bytes.now at }
    ensures later { IfOk result (λ end. at ≤ end) }
{
    let (size, first) = sleb_from(bytes, at)?;
    let typed = u64::from(size.unsigned_abs());
    numbers_end_from(bytes, first, 2 * typed + catch_alls_of(size))
}

// How many handlers of every type a list of this size has.
fn catch_alls_of(size: i32) -> u64
    ensures value { result ≡ catch_alls size }
    ensures bound { result ≤ 1 }
{
    if size <= 0 { 1 } else { 0 }
}

/// A list begins at a place.
pub fn begins_list(starts: &[usize], place: usize) -> bool
    requires { IsRising starts.now }
    ensures { result ≡ list_any (λ q. q == place) starts.now }
{
    starts.binary_search(&place).is_ok()
}

/// The handlers of the list at a place, behind those of earlier tries.
#[tactic(auto, unfolding(crate::specs::Reading::with_handlers))]
pub fn add_list(
    bytes: &[u8],
    bounds: Bounds,
    t: u32,
    at: usize,
    handlers: &mut Vec<Handler>,
) -> Result<(), Stop>
    requires room { vec_len handlers.old ≤ limit_of Counted.Handlers }
    ensures value { Gives (λ _. handlers.new.items) result (with_handlers bytes.now bounds t at handlers.old.items) }
    ensures len { OnOk result ((vec_len handlers.old ≤ vec_len handlers.new) × (vec_len handlers.new ≤ limit_of Counted.Handlers)) }
{
    let (size, first) = sleb_from(bytes, at)?;
    let end = add_typed(bytes, bounds, t, size.unsigned_abs(), first, handlers)?;
    if size <= 0 {
        add_handler(bytes, bounds, None, end, handlers)?;
    }
    Ok(())
}

// So many handlers of one type each.
fn add_typed(
    bytes: &[u8],
    bounds: Bounds,
    t: u32,
    count: u32,
    at: usize,
    handlers: &mut Vec<Handler>,
) -> Result<usize, Stop>
    requires room { vec_len handlers.old ≤ limit_of Counted.Handlers }
    ensures value { Gives (λ end. record { place = end; handlers = handlers.new.items }) result (all_typed bytes.now bounds t at handlers.old.items count) }
    ensures len { OnOk result ((vec_len handlers.old ≤ vec_len handlers.new) × (vec_len handlers.new ≤ limit_of Counted.Handlers)) }
{
    let mut end = at;
    for i in 0..count {
        end = add_pair(bytes, bounds, t, end, handlers)?;
    }
    Ok(end)
}

// A handler of one type, and the place after it.
#[tactic(auto, unfolding(crate::specs::Reading::with_typed))]
fn add_pair(
    bytes: &[u8],
    bounds: Bounds,
    t: u32,
    at: usize,
    handlers: &mut Vec<Handler>,
) -> Result<usize, Stop>
    requires room { vec_len handlers.old ≤ limit_of Counted.Handlers }
    ensures value { Gives (λ end. record { place = end; handlers = handlers.new.items }) result (with_typed bytes.now bounds t (record { place = at; handlers = handlers.old.items })) }
    ensures len { OnOk result ((vec_len handlers.old ≤ vec_len handlers.new) × (vec_len handlers.new ≤ limit_of Counted.Handlers)) }
{
    let (caught, next) = uleb_from(bytes, at)?;
    if caught as usize >= bounds.types {
        return Err(Stop::Fault(DexFault::Index(TYPES, t, caught)));
    }
    add_handler(bytes, bounds, Some(caught), next, handlers)
}

// A handler with its address at a place, and the place after it.
#[tactic(auto, unfolding(crate::specs::Reading::with_address))]
fn add_handler(
    bytes: &[u8],
    bounds: Bounds,
    caught: Option<u32>,
    at: usize,
    handlers: &mut Vec<Handler>,
) -> Result<usize, Stop>
    requires room { vec_len handlers.old ≤ limit_of Counted.Handlers }
    ensures value { Gives (λ end. record { place = end; handlers = handlers.new.items }) result (with_address bytes.now bounds caught at handlers.old.items) }
    ensures len { OnOk result ((vec_len handlers.old ≤ vec_len handlers.new) × (vec_len handlers.new ≤ limit_of Counted.Handlers)) }
{
    let (target, end) = uleb_from(bytes, at)?;
    if target >= bounds.units {
        return Err(Stop::Fault(DexFault::HandlerAddress(at)));
    }
    if handlers.len() as u64 + 1 > limit(Counted::Handlers) {
        return Err(Stop::Fault(DexFault::Limit(Counted::Handlers)));
    }
    handlers.push(Handler { caught, target })?;
    Ok(end)
}
