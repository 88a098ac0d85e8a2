//! Which strings of a file are one text.
ghost use Rattle.std.specs.Prelude.{◌≡◌, ◌<◌, ℕ, List, Some, [], length, unwrap_or, vec_len, IfOk, OnOk};
ghost use Rattle.std.specs.Map.{update};
ghost use Rattle.std.specs.Str.{bytes_eq};
ghost use Rattle.dex_tables.specs.Content.{AreTablesOf};
ghost use Rattle.dex_tables.specs.Rows.{string_count, string_text};
ghost use Rattle.dex_code.specs.Alike.{AreTextNumbers, AreKeptNumbers, AreFirsts, first_in};

use dex_bytes::header_from;
use dex_tables::{Tables, string_bytes};
use std::alloc::{AllocError, Global};
use std::collections::BTreeMap;
use std::marker::Model;

/// A number for each string row of a file, so that two rows have one number exactly where they have the
/// same bytes. There are none before two different rows were compared: then each string is read once, and
/// a long text that many rows have is not gone over at each comparison.
#[derive(Drop)]
pub struct TextNumbers {
    rows: Vec<u32>,
}

impl Model for TextNumbers {
    ghost use Rattle.std.specs.Prelude.{ℕ, List};

    ghost Value = { List ℕ };

    ghost view = { λ n. n.rows.items };
}

impl TextNumbers {
    /// No numbers yet.
    pub fn new(alloc: Global) -> TextNumbers
        ensures { result ≡ [] }
    {
        TextNumbers {
            rows: Vec::new(alloc),
        }
    }

    fn fill(&mut self, alloc: Global, bytes: &[u8], tables: &Tables) -> Result<(), AllocError>
        requires tables { AreTablesOf bytes.now tables.now }
        requires numbers { AreKeptNumbers bytes.now self.old }
        ensures filled { OnOk result (AreTextNumbers bytes.now self.new) }
        ensures numbers { AreKeptNumbers bytes.now self.new }
    {
        if self.rows.is_empty() {
            self.rows = number_texts(alloc, bytes, tables)?;
        }
        Ok(())
    }

    /// Two strings have the same bytes.
    pub fn are_alike(
        &mut self,
        alloc: Global,
        bytes: &[u8],
        tables: &Tables,
        first: u32,
        second: u32,
    ) -> Result<bool, AllocError>
        requires tables { AreTablesOf bytes.now tables.now }
        requires first { first < string_count bytes.now }
        requires second { second < string_count bytes.now }
        requires numbers { AreKeptNumbers bytes.now self.old }
        ensures alike { IfOk result (λ alike. alike ≡ bytes_eq (string_text bytes.now first) (string_text bytes.now second)) }
        ensures numbers { AreKeptNumbers bytes.now self.new }
    {
        if first == second {
            return Ok(true);
        }
        self.fill(alloc, bytes, tables)?;
        Ok(self.rows[first as usize] == self.rows[second as usize])
    }
}

fn text_of<'a>(bytes: &'a [u8], tables: &Tables, string: u32) -> &'a [u8]
    requires tables { AreTablesOf bytes.now tables.now }
    requires row { string < string_count bytes.now }
    ensures { result.now ≡ string_text bytes.now string }
{
    match string_bytes(bytes, tables, string) {
        Some(text) => text,
        None => unreachable!(),
    }
}

// The row that first had a text: this one, where none had.
fn first_of<'a>(
    firsts: &mut BTreeMap<&'a [u8], u32>,
    text: &'a [u8],
    row: u32,
) -> Result<u32, AllocError>
    ensures first { IfOk result (λ first. first ≡ unwrap_or (first_in firsts.old text.now) row) }
    ensures firsts { IfOk result (λ first. (t : List ℕ) → first_in firsts.new t ≡ update bytes_eq (first_in firsts.old) text.now (Some first) t) }
{
    if let Some(first) = firsts.get(text) {
        return Ok(*first);
    }
    firsts.insert(text, row)?;
    Ok(row)
}

fn number_texts(alloc: Global, bytes: &[u8], tables: &Tables) -> Result<Vec<u32>, AllocError>
    requires { AreTablesOf bytes.now tables.now }
    ensures { IfOk result (λ numbers. AreTextNumbers bytes.now numbers.items) }
{
    let count = header_from(bytes).strings.size;
    let mut firsts = BTreeMap::new(alloc);
    let mut numbers = Vec::with_capacity(alloc, count as usize)?;
    for s in 0..count {
        let first = first_of(&mut firsts, text_of(bytes, tables, s), s)?;
        numbers.push(first)?;
    }
    Ok(numbers)
}
