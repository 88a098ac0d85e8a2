//! Type lists.
ghost use Rattle.std.specs.Prelude.{◌≡◌, ◌≢◌, ℕ, ◌+◌, ◌*◌, ◌≤◌, ◌<◌, ◌++◌, length, vec_len, OnOk, MatchResult, Ok, Err};
ghost use Rattle.ns_base.specs.Answers.{limit_of};
ghost use Rattle.dex_tables.specs.Reading.{named, rows_below, list_below, entries_at, list_at, list_entries, IsListThere};
ghost use Rattle.dex_tables.specs.Rows.{list_size, list_entry};

use crate::named::row_named;
use crate::tables::Slice;
use dex_bytes::{DexFault, u16_from, u32_from};
use ns_base::{Counted, limit};
use std::alloc::AllocError;

// A list begins with its number of entries; each entry is a type.
const LIST_SIZE_LEN: usize = 4;

const LIST_ENTRY_LEN: usize = 2;

/// The row of a table that names type lists, and how many types there are.
#[derive(Clone, Copy)]
pub struct Namer {
    pub table: u8,
    pub row: u32,
    pub types: u32,
}

/// The type list at an offset, where so many entries came before.
#[tactic(auto, unfolding(crate::specs::Reading::list_at))]
pub fn list_from(bytes: &[u8], by: Namer, before: u32, off: u32) -> Result<Slice, DexFault>
    requires { before ≤ limit_of Counted.TypeLists }
    ensures value { result ≡ list_at bytes.now by.table by.row by.types before off }
    ensures room { OnOk result (IsListThere bytes.now before off) }
{
    if off == 0 {
        return Ok(Slice { at: before, len: 0 });
    }
    if bytes.len() < off as usize + LIST_SIZE_LEN {
        return Err(DexFault::Short(off as usize));
    }
    let size = size_from(bytes, off);
    let at = off as usize + LIST_SIZE_LEN;
    if bytes.len() < at + LIST_ENTRY_LEN * size as usize {
        return Err(DexFault::Short(at));
    }
    check_entries(bytes, by, off, size)?;
    if u64::from(before) + u64::from(size) > limit(Counted::TypeLists) {
        return Err(DexFault::Limit(Counted::TypeLists));
    }
    Ok(Slice {
        at: before,
        len: size,
    })
}

#[tactic(auto, unfolding(crate::specs::Rows::list_size))]
fn size_from(bytes: &[u8], off: u32) -> u32
    requires { off ≢ 0 → off + 4 ≤ length bytes.now }
    ensures { result ≡ list_size bytes.now off }
{
    if off == 0 {
        return 0;
    }
    u32_from(bytes, off as usize)
}

#[tactic(auto, unfolding(crate::specs::Rows::list_entry))]
fn entry_from(bytes: &[u8], off: u32, k: u32) -> u16
    requires { off + 4 + 2 * k + 2 ≤ length bytes.now }
    ensures { result ≡ list_entry bytes.now off k }
{
    u16_from(
        bytes,
        off as usize + LIST_SIZE_LEN + LIST_ENTRY_LEN * k as usize,
    )
}

// The first entry that is no type is the fault.
fn check_entries(bytes: &[u8], by: Namer, off: u32, size: u32) -> Result<(), DexFault>
    requires { off + 4 + 2 * size ≤ length bytes.now }
    ensures { MatchResult result
        (λ _. rows_below (λ k. named by.table by.row by.types (list_entry bytes.now off k)) size ≡ Ok (list_below (list_entry bytes.now off) size))
        (λ e. rows_below (λ k. named by.table by.row by.types (list_entry bytes.now off k)) size ≡ Err e) }
{
    for k in 0..size {
        row_named(
            by.table,
            by.row,
            by.types,
            u32::from(entry_from(bytes, off, k)),
        )?;
    }
    Ok(())
}

/// Puts the entries of a list that was read behind those of the earlier ones.
pub fn add_entries(bytes: &[u8], off: u32, lists: &mut Vec<u16>) -> Result<(), AllocError>
    requires { off ≢ 0 → off + 4 + 2 * list_size bytes.now off ≤ length bytes.now }
    ensures entries { OnOk result (lists.new.items ≡ lists.old.items ++ list_entries bytes.now off) }
    ensures len { OnOk result (vec_len lists.new ≡ vec_len lists.old + list_size bytes.now off) }
{
    let size = size_from(bytes, off);
    for k in 0..size {
        lists.push(entry_from(bytes, off, k))?;
    }
    Ok(())
}
