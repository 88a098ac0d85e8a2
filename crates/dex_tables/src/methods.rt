//! Method ids.
ghost use Rattle.std.specs.Prelude.{◌≡◌, ◌+◌, ◌*◌, ◌≤◌, length};
ghost use Rattle.dex_tables.specs.Reading.{Gives, method_in, methods_at};

use crate::layout::{METHOD_ID_SIZE, METHODS, ends_past, row_at};
use crate::named::{row_named, short_named};
use crate::stop::Stop;
use crate::tables::MethodId;
use dex_bytes::{DexFault, Header, u16_from, u32_from};
use std::alloc::Global;

// Where the fields of a row stand; the first is the class.
const PROTO_AT: usize = 2;

const NAME_AT: usize = 4;

/// The rows of the method ids.
pub fn read_methods(alloc: Global, bytes: &[u8], header: &Header) -> Result<Vec<MethodId>, Stop>
    ensures { Gives (λ v. v.items) result (methods_at bytes.now header.now) }
{
    let part = header.methods;
    if ends_past(bytes, part, METHOD_ID_SIZE) {
        return Err(Stop::Fault(DexFault::TableRange(METHODS)));
    }
    let mut methods = Vec::with_capacity(alloc, part.size as usize)?;
    for m in 0..part.size {
        let row = method_from(bytes, header, m)?;
        methods.push(row)?;
    }
    Ok(methods)
}

#[tactic(auto, unfolding(crate::specs::Reading::method_in))]
fn method_from(bytes: &[u8], header: &Header, row: u32) -> Result<MethodId, DexFault>
    requires { header.now.methods.off + 8 * row + 8 ≤ length bytes.now }
    ensures { result ≡ method_in bytes.now header.now row }
{
    let at = row_at(header.methods, METHOD_ID_SIZE, row);
    let types = header.types.size;
    let protos = header.protos.size;
    let strings = header.strings.size;
    let class = short_named(METHODS, row, types, u16_from(bytes, at))?;
    let proto = short_named(METHODS, row, protos, u16_from(bytes, at + PROTO_AT))?;
    let name = row_named(METHODS, row, strings, u32_from(bytes, at + NAME_AT))?;
    Ok(MethodId { class, proto, name })
}
