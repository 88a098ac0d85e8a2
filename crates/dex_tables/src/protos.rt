//! Prototype ids.
ghost use Rattle.std.specs.Prelude.{◌≡◌, ◌+◌, ◌*◌, ◌≤◌, [], length, vec_len, OnOk};
ghost use Rattle.ns_base.specs.Answers.{limit_of};
ghost use Rattle.dex_tables.specs.Reading.{Gives, IsListThere, protos_at, proto_at, params_off, params_total, all_params};

use crate::layout::{PROTO_ID_SIZE, PROTOS, ends_past, row_at};
use crate::lists::{Namer, add_entries, list_from};
use crate::named::row_named;
use crate::stop::Stop;
use crate::tables::ProtoId;
use dex_bytes::{DexFault, Header, u32_from};
use ns_base::Counted;
use std::alloc::Global;

// Where the fields of a row stand; the first is the shorty.
const RESULT_AT: usize = 4;

const PARAMS_AT: usize = 8;

/// The rows of the prototype ids. Puts the entries of their parameters into `lists`.
pub fn read_protos(
    alloc: Global,
    bytes: &[u8],
    header: &Header,
    lists: &mut Vec<u16>,
) -> Result<Vec<ProtoId>, Stop>
    requires none { (lists.old.items ≡ []) × (vec_len lists.old ≡ 0) }
    ensures rows { Gives (λ v. v.items) result (protos_at bytes.now header.now) }
    ensures lists { OnOk result (lists.new.items ≡ all_params bytes.now header.now header.now.protos.size) }
    ensures len { OnOk result (vec_len lists.new ≡ params_total bytes.now header.now header.now.protos.size) }
    ensures limit { OnOk result (vec_len lists.new ≤ limit_of Counted.TypeLists) }
{
    let part = header.protos;
    if ends_past(bytes, part, PROTO_ID_SIZE) {
        return Err(Stop::Fault(DexFault::TableRange(PROTOS)));
    }
    let mut protos = Vec::with_capacity(alloc, part.size as usize)?;
    for p in 0..part.size {
        let row = proto_from(bytes, header, lists.len() as u32, p)?;
        add_entries(bytes, params_from(bytes, header, p), lists)?;
        protos.push(row)?;
    }
    Ok(protos)
}

#[tactic(auto, unfolding(crate::specs::Reading::proto_at))]
fn proto_from(bytes: &[u8], header: &Header, before: u32, row: u32) -> Result<ProtoId, DexFault>
    requires row { header.now.protos.off + 12 * row + 12 ≤ length bytes.now }
    requires before { before ≤ limit_of Counted.TypeLists }
    ensures value { result ≡ proto_at bytes.now header.now before row }
    ensures params { OnOk result (IsListThere bytes.now before (params_off bytes.now header.now row)) }
{
    let at = row_at(header.protos, PROTO_ID_SIZE, row);
    let types = header.types.size;
    let shorty = row_named(PROTOS, row, header.strings.size, u32_from(bytes, at))?;
    let gives = row_named(PROTOS, row, types, u32_from(bytes, at + RESULT_AT))?;
    let by = Namer {
        table: PROTOS,
        row,
        types,
    };
    let params = list_from(bytes, by, before, params_from(bytes, header, row))?;
    Ok(ProtoId {
        shorty,
        result: gives,
        params,
    })
}

// The offset of the parameters' type list.
fn params_from(bytes: &[u8], header: &Header, row: u32) -> u32
    requires { header.now.protos.off + 12 * row + 12 ≤ length bytes.now }
    ensures { result ≡ params_off bytes.now header.now row }
{
    u32_from(bytes, row_at(header.protos, PROTO_ID_SIZE, row) + PARAMS_AT)
}
