//! The name of a class, from the tables of its file alone.
ghost use Rattle.std.specs.Prelude.{◌≡◌, ◌≤◌, length, IfOk, IfErr, Ok};
ghost use Rattle.dex_tables.specs.Content.{AreTablesOf};
ghost use Rattle.dex_file.specs.declared.fault.FileFault.TheVariants.{Memory};
ghost use Rattle.dex_file.specs.Content.{FileContent, class_text, row_text};
ghost use Rattle.dex_file.specs.Reading.{content_of};

use crate::fault::FileFault;
use crate::reading::{read_front, read_ids};
use dex_tables::{Tables, string_bytes};
use std::alloc::{AllocError, Global};

fn name_in(alloc: Global, bytes: &[u8], tables: &Tables, row: u32) -> Result<Vec<u8>, AllocError>
    requires { AreTablesOf bytes.now tables.now }
    ensures { IfOk result (λ name. name.items ≡ row_text bytes.now tables.now row) }
{
    let Some(class) = tables.classes.get(row as usize) else {
        return Ok(Vec::new(alloc));
    };
    let Some(string) = tables.types.get(class.class as usize) else {
        return Ok(Vec::new(alloc));
    };
    match string_bytes(bytes, tables, *string) {
        Some(text) => text.to_vec(alloc),
        None => Ok(Vec::new(alloc)),
    }
}

/// The name of a class row of a file that can be read; past the rows it is empty. It reads the header and
/// the tables again, for callers that have the bytes and no longer the content.
pub fn class_name(alloc: Global, bytes: &[u8], row: u32) -> Result<Vec<u8>, FileFault>
    requires { length bytes.now ≤ 4294967295 }
    ensures name { (content : FileContent) → content_of bytes.now ≡ Ok content → IfOk result (λ name. name.items ≡ class_text content row) }
    ensures fault { (content : FileContent) → content_of bytes.now ≡ Ok content → IfErr result (λ fault. fault ≡ Memory) }
{
    let header = match read_front(bytes) {
        Ok(header) => header,
        Err(fault) => return Err(fault),
    };
    match read_ids(alloc, bytes, &header) {
        Ok(tables) => Ok(name_in(alloc, bytes, &tables, row)?),
        Err(fault) => Err(fault),
    }
}
