//! The rows of the application.
ghost use Rattle.std.specs.Prelude.{◌≡◌, ◌≤◌, ◌<◌, ◌^◌, length, map, bytes_eq, slice_index_or, [], IfOk};
ghost use Rattle.app_model.specs.Names.{wake_lock_name};
ghost use Rattle.app_model.specs.Words.{IsApp};
ghost use Rattle.app_rows.specs.Linked.{type_no, proto_row, locks_from, app_of, linked};
ghost use Rattle.app_rows.specs.Small.{AreSmall};

use crate::members::{ClassMembers, collect_members};
use crate::numbers::{SeenLists, see};
use app_model::{AppRows, FieldRow, ProtoRow, WAKE_LOCK};
use dex_file::FileParts;
use ns_base::{FieldNo, TypeNo};
use std::alloc::{AllocError, Global};

fn type_list(alloc: Global, numbers: &[u32]) -> Result<Vec<TypeNo>, AllocError>
    ensures { IfOk result (λ types. types.items ≡ map type_no numbers.now) }
{
    let mut types = Vec::with_capacity(alloc, numbers.len())?;
    for number in numbers {
        types.push(TypeNo(*number))?;
    }
    Ok(types)
}

fn proto_row(alloc: Global, proto: &[u32]) -> Result<ProtoRow, AllocError>
    ensures { IfOk result (λ row. row ≡ proto_row proto.now) }
{
    match proto {
        [result, params @ ..] => Ok(ProtoRow {
            result: TypeNo(*result),
            params: type_list(alloc, params)?,
        }),
        [] => Ok(ProtoRow {
            result: TypeNo(0),
            params: Vec::new(alloc),
        }),
    }
}

fn proto_rows(alloc: Global, protos: &[Vec<u32>]) -> Result<Vec<ProtoRow>, AllocError>
    ensures { IfOk result (λ rows. rows.items ≡ map proto_row (map (λ v. v.items) protos.now)) }
{
    let mut rows = Vec::with_capacity(alloc, protos.len())?;
    for p in 0..protos.len() {
        rows.push(proto_row(alloc, &protos[p])?)?;
    }
    Ok(rows)
}

fn is_lock(types: &[Vec<u8>], kind: TypeNo) -> bool
    ensures { result ≡ bytes_eq (slice_index_or (map (λ v. v.items) types.now) kind.0 []) wake_lock_name }
{
    match types.get(kind.0 as usize) {
        Some(text) => text.as_slice() == WAKE_LOCK,
        None => false,
    }
}

fn find_locks(
    alloc: Global,
    types: &[Vec<u8>],
    fields: &[FieldRow],
) -> Result<Vec<FieldNo>, AllocError>
    requires { length fields.now < 2 ^ 32 }
    ensures { IfOk result (λ locks. locks.items ≡ locks_from (map (λ v. v.items) types.now) 0 fields.now) }
{
    let mut locks = Vec::new(alloc);
    for f in 0..fields.len() {
        if is_lock(types, fields[f].kind) {
            locks.push(FieldNo(f as u32))?;
        }
    }
    Ok(locks)
}

fn join_rows(alloc: Global, seen: SeenLists, members: ClassMembers) -> Result<AppRows, AllocError>
    requires { length members.fields < 2 ^ 32 }
    ensures { IfOk result (λ rows. rows ≡ app_of seen members) }
{
    let types = seen.types.into_vec(alloc)?;
    let names = seen.names.into_vec(alloc)?;
    let protos = seen.protos.into_vec(alloc)?;
    let locks = find_locks(alloc, &types, &members.fields)?;
    Ok(AppRows {
        protos: proto_rows(alloc, &protos)?,
        types,
        names,
        classes: members.classes,
        methods: members.methods,
        fields: members.fields,
        locks,
        code: members.code,
        operands: members.operands,
    })
}

/// The rows of the application of these files. Bodies are moved.
#[tactic(auto, unfolding(crate::specs::Linked::linked))]
pub fn make_rows(alloc: Global, files: Vec<FileParts>) -> Result<AppRows, AllocError>
    requires { AreSmall files.items }
    ensures rows { IfOk result (λ rows. rows ≡ linked files.items) }
    ensures app { IfOk result (λ rows. length rows.locks ≤ 64 → IsApp rows) }
    ensures classes { IfOk result (λ rows. length rows.classes < 2 ^ 32) }
{
    let seen = see(alloc, &files)?;
    let members = collect_members(alloc, &seen, files)?;
    let rows = join_rows(alloc, seen, members)?;
    Ok(rows)
}
