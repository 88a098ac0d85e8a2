//! Reading the id tables, in the order in which the header names them.
ghost use Rattle.std.specs.Prelude.{◌≡◌, ℕ, ◌≤◌, ◌<◌, ◌↔◌, List, length, IfOk, Ok};
ghost use Rattle.dex_bytes.specs.Header.{header_of};
ghost use Rattle.dex_tables.specs.Content.{AreTablesOf, IdTables};
ghost use Rattle.dex_tables.specs.Reading.{Gives, IsReading, tables_in, tables_at};

use crate::classes::read_classes;
use crate::fields::read_fields;
use crate::methods::read_methods;
use crate::protos::read_protos;
use crate::stop::Stop;
use crate::strings::read_strings;
use crate::tables::Tables;
use crate::types::read_types;
use dex_bytes::{DexFault, Header};
use std::alloc::Global;

/// The id tables. `TableRange` names a table that does not lie in the file, `Index` a row with a number
/// that is past the table it names; `Short`, `Leb` and `Mutf8` come from the data of strings and from
/// type lists. Tables may overlap each other and the header.
pub fn read_tables(alloc: Global, bytes: &[u8], header: &Header) -> Result<Tables, DexFault>
    requires header { header.now ≡ header_of bytes.now }
    requires whole { 112 ≤ length bytes.now }
    requires len { length bytes.now ≤ 4294967295 }
    ensures exact { IsReading result (tables_at bytes.now) }
    ensures content { IfOk result (λ tables. AreTablesOf bytes.now tables) }
{
    match read_all(alloc, bytes, header) {
        Ok(tables) => Ok(tables),
        Err(Stop::Fault(fault)) => Err(fault),
        Err(Stop::Memory) => Err(DexFault::Memory),
    }
}

#[tactic(auto, unfolding(crate::specs::Reading::tables_in))]
fn read_all(alloc: Global, bytes: &[u8], header: &Header) -> Result<Tables, Stop>
    requires { length bytes.now ≤ 4294967295 }
    ensures { Gives (λ t. t) result (tables_in bytes.now header.now) }
{
    let strings = read_strings(alloc, bytes, header)?;
    let types = read_types(alloc, bytes, header)?;
    let mut lists = Vec::new(alloc);
    let protos = read_protos(alloc, bytes, header, &mut lists)?;
    let fields = read_fields(alloc, bytes, header)?;
    let methods = read_methods(alloc, bytes, header)?;
    let classes = read_classes(alloc, bytes, header, &mut lists)?;
    Ok(Tables {
        strings,
        types,
        protos,
        fields,
        methods,
        classes,
        lists,
    })
}

/// Reading in order gives exactly the tables that say by offsets what the file says, where each row is
/// sound and the limits are kept.
pub fn tables_law()
    ensures { (bs : List ℕ) (tables : IdTables) → 112 ≤ length bs → ((tables_at bs ≡ Ok tables) ↔ AreTablesOf bs tables) }
{}
