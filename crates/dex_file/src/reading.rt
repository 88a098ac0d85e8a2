//! Reading a whole DEX file.
ghost use Rattle.std.specs.Prelude.{◌≡◌, ℕ, ◌+◌, ◌<◌, ◌≤◌, ◌↔◌, List, length, map, IfOk, Ok};
ghost use Rattle.ns_base.specs.Answers.{limit_of};
ghost use Rattle.ns_base.specs.declared.answers.Counted.TheVariants.{FileBytes};
ghost use Rattle.dex_bytes.specs.Header.{header_at, header_of};
ghost use Rattle.dex_tables.specs.Content.{AreTablesOf};
ghost use Rattle.dex_tables.specs.Reading.{list_below, tables_at};
ghost use Rattle.dex_tables.specs.Rows.{string_count, string_text};
ghost use Rattle.dex_file.specs.Exact.{IsExact, in_dex};
ghost use Rattle.dex_file.specs.Content.{file_of, proto_of, FileContent, IsContentOf};
ghost use Rattle.dex_file.specs.Reading.{content_of, IsContent};
ghost use Rattle.dex_file.specs.Sizes.{IsShort};
ghost use Rattle.dex_file.specs.Sound.{IsSoundFile};

use crate::classes::{Classes, copy_list, read_classes};
use crate::fault::{FileFault, dex_fault_of};
use crate::parts::{DexParts, FileParts, FileProto};
use dex_bytes::{Header, header_from, read_header};
use dex_tables::{ProtoId, Tables, read_tables, string_bytes};
use std::alloc::{AllocError, Global};

/// The header.
pub fn read_front(bytes: &[u8]) -> Result<Header, FileFault>
    ensures exact { IsExact result (in_dex (header_at bytes.now)) }
    ensures header { IfOk result (λ header. (header ≡ header_of bytes.now) × (112 ≤ length bytes.now)) }
{
    match read_header(bytes) {
        Ok(header) => Ok(header),
        Err(fault) => Err(dex_fault_of(fault)),
    }
}

/// The id tables.
pub fn read_ids(alloc: Global, bytes: &[u8], header: &Header) -> Result<Tables, FileFault>
    requires header { header.now ≡ header_of bytes.now }
    requires whole { 112 ≤ length bytes.now }
    requires len { length bytes.now ≤ 4294967295 }
    ensures exact { IsExact result (in_dex (tables_at bytes.now)) }
    ensures content { IfOk result (λ tables. AreTablesOf bytes.now tables) }
{
    match read_tables(alloc, bytes, header) {
        Ok(tables) => Ok(tables),
        Err(fault) => Err(dex_fault_of(fault)),
    }
}

fn copy_text(
    alloc: Global,
    bytes: &[u8],
    tables: &Tables,
    string: u32,
) -> Result<Vec<u8>, AllocError>
    requires tables { AreTablesOf bytes.now tables.now }
    requires row { string < string_count bytes.now }
    ensures { IfOk result (λ text. text.items ≡ string_text bytes.now string) }
{
    match string_bytes(bytes, tables, string) {
        Some(text) => text.to_vec(alloc),
        None => unreachable!(),
    }
}

fn copy_texts(alloc: Global, bytes: &[u8], tables: &Tables) -> Result<Vec<Vec<u8>>, AllocError>
    requires { AreTablesOf bytes.now tables.now }
    ensures { IfOk result (λ texts. map (λ text. text.items) texts.items ≡ list_below (string_text bytes.now) (string_count bytes.now)) }
{
    let count = header_from(bytes).strings.size;
    let mut texts = Vec::with_capacity(alloc, count as usize)?;
    for i in 0..count {
        texts.push(copy_text(alloc, bytes, tables, i)?)?;
    }
    Ok(texts)
}

fn copy_proto(alloc: Global, lists: &[u16], row: ProtoId) -> Result<FileProto, AllocError>
    requires { row.params.at + row.params.len ≤ length lists.now }
    ensures { IfOk result (λ proto. proto ≡ proto_of lists.now row) }
{
    Ok(FileProto {
        shorty: row.shorty,
        result: row.result,
        params: copy_list(alloc, lists, row.params)?,
    })
}

fn copy_protos(alloc: Global, bytes: &[u8], tables: &Tables) -> Result<Vec<FileProto>, AllocError>
    requires { AreTablesOf bytes.now tables.now }
    ensures { IfOk result (λ protos. protos.items ≡ map (proto_of tables.now.lists) tables.now.protos) }
{
    let mut protos = Vec::with_capacity(alloc, tables.protos.len())?;
    for p in 0..tables.protos.len() {
        protos.push(copy_proto(alloc, &tables.lists, tables.protos[p])?)?;
    }
    Ok(protos)
}

// What is kept, once all was read.
fn keep(alloc: Global, bytes: &[u8], tables: Tables, read: Classes) -> Result<FileParts, AllocError>
    requires { AreTablesOf bytes.now tables }
    ensures { IfOk result (λ parts. parts ≡ file_of bytes.now tables read.classes read.sums.units) }
{
    let strings = copy_texts(alloc, bytes, &tables)?;
    let protos = copy_protos(alloc, bytes, &tables)?;
    Ok(FileParts {
        strings,
        types: tables.types,
        protos,
        fields: tables.fields,
        methods: tables.methods,
        classes: read.classes,
        units: read.sums.units,
    })
}

/// The content of a DEX file. The first fault is named: of the header, of the tables, and then of the
/// class rows one by one. A class's members come before the code of its methods, and a method's code
/// item before its graph. `Limit` of members, code units and handlers counts the whole file.
#[tactic(auto, unfolding(crate::specs::Reading::content_of))]
pub fn read_dex(alloc: Global, bytes: &[u8]) -> Result<DexParts, FileFault>
    requires { length bytes.now ≤ 4294967295 }
    ensures exact { IsExact result (content_of bytes.now) }
    ensures content { IfOk result (λ parts. IsContentOf bytes.now parts) }
{
    let header = read_front(bytes)?;
    let tables = read_ids(alloc, bytes, &header)?;
    let read = read_classes(alloc, bytes, &tables)?;
    let parts = keep(alloc, bytes, tables, read)?;
    Ok(DexParts { parts })
}

/// Reading in order gives exactly the content that stands in the file, where all of it is sound and
/// within the limits.
pub fn content_law()
    ensures { (bs : List ℕ) (content : FileContent) → (content_of bs ≡ Ok content) ↔ IsContentOf bs content }
{}

/// The content of a file that is not longer than the program reads has no table that is too long to be linked.
pub fn short_law()
    ensures { (bs : List ℕ) (content : FileContent) → IsContentOf bs content → length bs ≤ limit_of FileBytes → IsShort content }
{}

/// Every number of a content that was read is a row of its table, and code fits its method.
pub fn sound_law()
    ensures { (content : FileContent) → IsContent content → IsSoundFile content }
{}
