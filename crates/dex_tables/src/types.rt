//! Type ids.
ghost use Rattle.std.specs.Prelude.{◌≡◌, ◌+◌, ◌*◌, ◌≤◌, length};
ghost use Rattle.dex_tables.specs.Reading.{Gives, type_in, types_at};

use crate::layout::{TYPE_ID_SIZE, TYPES, ends_past, row_at};
use crate::named::row_named;
use crate::stop::Stop;
use dex_bytes::{DexFault, Header, u32_from};
use std::alloc::Global;

/// The rows of the type ids.
pub fn read_types(alloc: Global, bytes: &[u8], header: &Header) -> Result<Vec<u32>, Stop>
    ensures { Gives (λ v. v.items) result (types_at bytes.now header.now) }
{
    let part = header.types;
    if ends_past(bytes, part, TYPE_ID_SIZE) {
        return Err(Stop::Fault(DexFault::TableRange(TYPES)));
    }
    let mut types = Vec::with_capacity(alloc, part.size as usize)?;
    for t in 0..part.size {
        let row = type_from(bytes, header, t)?;
        types.push(row)?;
    }
    Ok(types)
}

fn type_from(bytes: &[u8], header: &Header, row: u32) -> Result<u32, DexFault>
    requires { header.now.types.off + 4 * row + 4 ≤ length bytes.now }
    ensures { result ≡ type_in bytes.now header.now row }
{
    let at = row_at(header.types, TYPE_ID_SIZE, row);
    row_named(TYPES, row, header.strings.size, u32_from(bytes, at))
}
