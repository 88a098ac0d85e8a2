//! String ids and the data that they name.
ghost use Rattle.std.specs.Prelude.{◌≡◌, ℕ, ◌+◌, ◌-◌, ◌*◌, ◌≤◌, ◌<◌, length, IfOk, MatchOption};
ghost use Rattle.ns_base.specs.Answers.{limit_of};
ghost use Rattle.dex_bytes.specs.Leb128.{uleb_at};
ghost use Rattle.dex_bytes.specs.Mutf8.{mutf8_at};
ghost use Rattle.dex_bytes.specs.Places.{text_at, uleb_next};
ghost use Rattle.dex_tables.specs.Content.{AreTablesOf, string_slice};
ghost use Rattle.dex_tables.specs.Reading.{Gives, string_at, string_off, strings_at};
ghost use Rattle.dex_tables.specs.Rows.{string_count, string_text};

use crate::layout::{STRING_ID_SIZE, STRINGS, ends_past, row_at};
use crate::stop::Stop;
use crate::tables::{Slice, Tables};
use dex_bytes::{DexFault, Header, mutf8, u32_from, uleb};
use ns_base::{Counted, limit};
use std::alloc::Global;

/// The rows of the string ids.
pub fn read_strings(alloc: Global, bytes: &[u8], header: &Header) -> Result<Vec<Slice>, Stop>
    requires { length bytes.now ≤ 4294967295 }
    ensures { Gives (λ v. v.items) result (strings_at bytes.now header.now) }
{
    let part = header.strings;
    if ends_past(bytes, part, STRING_ID_SIZE) {
        return Err(Stop::Fault(DexFault::TableRange(STRINGS)));
    }
    let mut strings = Vec::with_capacity(alloc, part.size as usize)?;
    let mut before = 0;
    for i in 0..part.size {
        let off = off_from(bytes, header, i);
        let row = string_from(bytes, before, off)?;
        before += row.len;
        strings.push(row)?;
    }
    Ok(strings)
}

// The offset of a string's data.
fn off_from(bytes: &[u8], header: &Header, row: u32) -> u32
    requires { header.now.strings.off + 4 * row + 4 ≤ length bytes.now }
    ensures { result ≡ string_off bytes.now header.now row }
{
    u32_from(bytes, row_at(header.strings, STRING_ID_SIZE, row))
}

// The data of a string, where so many bytes came before.
#[tactic(auto, unfolding(crate::specs::Reading::string_at))]
fn string_from(bytes: &[u8], before: u32, off: u32) -> Result<Slice, DexFault>
    requires size { length bytes.now ≤ 4294967295 }
    requires before { before ≤ limit_of Counted.Strings }
    ensures value { result ≡ string_at bytes.now before off }
    ensures len { IfOk result (λ s. s.len ≡ length (text_at bytes.now (uleb_next bytes.now off))) }
    ensures limit { IfOk result (λ s. before + s.len ≤ limit_of Counted.Strings) }
{
    let (units, at) = units_from(bytes, off as usize)?;
    let end = end_from(bytes, at, units)?;
    let len = end - at;
    if u64::from(before) + len as u64 > limit(Counted::Strings) {
        return Err(DexFault::Limit(Counted::Strings));
    }
    Ok(Slice {
        at: at as u32,
        len: len as u32,
    })
}

// The number of units, and the place of the text.
fn units_from(bytes: &[u8], off: usize) -> Result<(u32, usize), DexFault>
    ensures value { result ≡ uleb_at bytes.now off }
    ensures place { IfOk result (λ r. (r.1 ≡ uleb_next bytes.now off) × (r.1 ≤ length bytes.now)) }
{
    if off > bytes.len() {
        return Err(DexFault::Short(off));
    }
    uleb(bytes, off)
}

// The place of the zero byte after a text.
fn end_from(bytes: &[u8], at: usize, units: u32) -> Result<usize, DexFault>
    requires { at ≤ length bytes.now }
    ensures value { result ≡ mutf8_at bytes.now at units }
    ensures within { IfOk result (λ e. (at ≤ e) × (e < length bytes.now)) }
    ensures text { IfOk result (λ e. length (text_at bytes.now at) ≡ e - at) }
{
    mutf8(bytes, at, units)
}

/// The MUTF-8 bytes of a string.
pub fn string_bytes<'a>(bytes: &'a [u8], tables: &Tables, string: u32) -> Option<&'a [u8]>
    requires { AreTablesOf bytes.now tables.now }
    ensures { MatchOption result (string_count bytes.now ≤ string) (λ text.
        (string < string_count bytes.now) × (text.now ≡ string_text bytes.now string)) }
{
    if string as usize >= tables.strings.len() {
        return None;
    }
    let slice = tables.strings[string as usize];
    let (_, rest) = bytes.split_at(slice.at as usize);
    let (text, _) = rest.split_at(slice.len as usize);
    Some(text)
}
