//! Class definitions.
ghost use Rattle.std.specs.Prelude.{◌≡◌, ◌+◌, ◌*◌, ◌≤◌, ◌++◌, length, vec_len, OnOk};
ghost use Rattle.ns_base.specs.Answers.{limit_of};
ghost use Rattle.dex_tables.specs.Reading.{Gives, IsListThere, classes_at, parent_at, class_at, interfaces_off, interfaces_total, params_total, all_interfaces};

use crate::layout::{CLASS_DEF_SIZE, CLASSES, NO_PARENT, ends_past, row_at};
use crate::lists::{Namer, add_entries, list_from};
use crate::named::row_named;
use crate::stop::Stop;
use crate::tables::ClassDef;
use dex_bytes::{DexFault, Header, u32_from};
use ns_base::Counted;
use std::alloc::Global;

// Where the fields of a row stand; the first is the class.
const FLAGS_AT: usize = 4;

const PARENT_AT: usize = 8;

const INTERFACES_AT: usize = 12;

const MEMBERS_AT: usize = 24;

/// The rows of the class definitions. Puts the entries of their interfaces behind those of `lists`.
pub fn read_classes(
    alloc: Global,
    bytes: &[u8],
    header: &Header,
    lists: &mut Vec<u16>,
) -> Result<Vec<ClassDef>, Stop>
    requires len { vec_len lists.old ≡ params_total bytes.now header.now header.now.protos.size }
    requires limit { vec_len lists.old ≤ limit_of Counted.TypeLists }
    ensures rows { Gives (λ v. v.items) result (classes_at bytes.now header.now) }
    ensures lists { OnOk result (lists.new.items ≡ lists.old.items ++ all_interfaces bytes.now header.now header.now.classes.size) }
{
    let part = header.classes;
    if ends_past(bytes, part, CLASS_DEF_SIZE) {
        return Err(Stop::Fault(DexFault::TableRange(CLASSES)));
    }
    let mut classes = Vec::with_capacity(alloc, part.size as usize)?;
    for c in 0..part.size {
        let row = class_from(bytes, header, lists.len() as u32, c)?;
        add_entries(bytes, interfaces_from(bytes, header, c), lists)?;
        classes.push(row)?;
    }
    Ok(classes)
}

#[tactic(auto, unfolding(crate::specs::Reading::class_at))]
fn class_from(bytes: &[u8], header: &Header, before: u32, row: u32) -> Result<ClassDef, DexFault>
    requires row { header.now.classes.off + 32 * row + 32 ≤ length bytes.now }
    requires before { before ≤ limit_of Counted.TypeLists }
    ensures value { result ≡ class_at bytes.now header.now before row }
    ensures interfaces { OnOk result (IsListThere bytes.now before (interfaces_off bytes.now header.now row)) }
{
    let at = row_at(header.classes, CLASS_DEF_SIZE, row);
    let types = header.types.size;
    let class = row_named(CLASSES, row, types, u32_from(bytes, at))?;
    let parent = parent_from(row, types, u32_from(bytes, at + PARENT_AT))?;
    let by = Namer {
        table: CLASSES,
        row,
        types,
    };
    let interfaces = list_from(bytes, by, before, interfaces_from(bytes, header, row))?;
    Ok(ClassDef {
        class,
        flags: u32_from(bytes, at + FLAGS_AT),
        parent,
        interfaces,
        members: u32_from(bytes, at + MEMBERS_AT),
    })
}

fn parent_from(row: u32, types: u32, number: u32) -> Result<Option<u32>, DexFault>
    ensures { result ≡ parent_at row types number }
{
    if number == NO_PARENT {
        return Ok(None);
    }
    let parent = row_named(CLASSES, row, types, number)?;
    Ok(Some(parent))
}

// The offset of the interfaces' type list.
fn interfaces_from(bytes: &[u8], header: &Header, row: u32) -> u32
    requires { header.now.classes.off + 32 * row + 32 ≤ length bytes.now }
    ensures { result ≡ interfaces_off bytes.now header.now row }
{
    u32_from(
        bytes,
        row_at(header.classes, CLASS_DEF_SIZE, row) + INTERFACES_AT,
    )
}
