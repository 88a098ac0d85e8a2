//! Field ids.
ghost use Rattle.std.specs.Prelude.{◌≡◌, ◌+◌, ◌*◌, ◌≤◌, length};
ghost use Rattle.dex_tables.specs.Reading.{Gives, field_in, fields_at};

use crate::layout::{FIELD_ID_SIZE, FIELDS, ends_past, row_at};
use crate::named::{row_named, short_named};
use crate::stop::Stop;
use crate::tables::FieldId;
use dex_bytes::{DexFault, Header, u16_from, u32_from};
use std::alloc::Global;

// Where the fields of a row stand; the first is the class.
const KIND_AT: usize = 2;

const NAME_AT: usize = 4;

/// The rows of the field ids.
pub fn read_fields(alloc: Global, bytes: &[u8], header: &Header) -> Result<Vec<FieldId>, Stop>
    ensures { Gives (λ v. v.items) result (fields_at bytes.now header.now) }
{
    let part = header.fields;
    if ends_past(bytes, part, FIELD_ID_SIZE) {
        return Err(Stop::Fault(DexFault::TableRange(FIELDS)));
    }
    let mut fields = Vec::with_capacity(alloc, part.size as usize)?;
    for f in 0..part.size {
        let row = field_from(bytes, header, f)?;
        fields.push(row)?;
    }
    Ok(fields)
}

#[tactic(auto, unfolding(crate::specs::Reading::field_in))]
fn field_from(bytes: &[u8], header: &Header, row: u32) -> Result<FieldId, DexFault>
    requires { header.now.fields.off + 8 * row + 8 ≤ length bytes.now }
    ensures { result ≡ field_in bytes.now header.now row }
{
    let at = row_at(header.fields, FIELD_ID_SIZE, row);
    let types = header.types.size;
    let strings = header.strings.size;
    let class = short_named(FIELDS, row, types, u16_from(bytes, at))?;
    let kind = short_named(FIELDS, row, types, u16_from(bytes, at + KIND_AT))?;
    let name = row_named(FIELDS, row, strings, u32_from(bytes, at + NAME_AT))?;
    Ok(FieldId { class, kind, name })
}
