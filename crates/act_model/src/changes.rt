//! What an act does to the tag of one cell of a row: a register, or the result cell.
ghost use Rattle.std.specs.Prelude.{◌≡◌, ◌<◌, ◌+◌, length, map, slice_set};
ghost use Rattle.dalvik.specs.Calls.{receiver_of};
ghost use Rattle.app_model.specs.Masks.{in_lock_mask};
ghost use Rattle.act_model.specs.Changes as spec;

use crate::act::{Act, Gives, Written};
use crate::row::Row;
use app_model::{LockUse, Tag};
use dalvik::Args;
use ns_base::LockNo;

/// The tag of a cell after an act; after a call, where it leads outside. `site` is the number of the call among those
/// that make a lock.
pub fn tag_after<R: Row>(row: &R, site: u32, act: &Act, cell: usize) -> Tag
    requires { cell < length (R.tags row.now) }
    ensures { result ≡ spec.tag_in (spec.after site act.now (R.tags row.now)) cell }
{
    match *act {
        Act::Copy { to, from, wide } => {
            let pair = (row.tag(from as usize), row.tag(from as usize + 1));
            put_cell(row, cell, to, wide, pair)
        }
        Act::TakeResult { to } => set_cell(row, cell, to as usize, result_of(row)),
        Act::Write { to, written, .. } => {
            let tag = written_tag(written);
            put_cell(row, cell, to, is_pair(written), (tag, tag))
        }
        Act::Fill { .. } => result_cell(row, cell, Tag::Solid),
        Act::ReadSlot { to, slot, .. } => set_cell(row, cell, to as usize, Tag::Field(slot)),
        Act::WriteSlot { from, slot, .. } => stored_cell(row, cell, from, slot),
        Act::Call {
            usage,
            args,
            gives,
            ..
        } => call_cell(row, cell, site, (usage, args, gives)),
        Act::Go
        | Act::Test { .. }
        | Act::Give { .. }
        | Act::Check { .. }
        | Act::Throw { .. }
        | Act::Return { .. } => row.tag(cell),
    }
}

/// The tag of a cell where an act threw; where a call threw, that leads outside.
pub fn tag_thrown<R: Row>(row: &R, act: &Act, cell: usize) -> Tag
    requires { cell < length (R.tags row.now) }
    ensures { result ≡ spec.tag_in (spec.thrown act.now (R.tags row.now)) cell }
{
    match *act {
        Act::Call { usage, args, .. } => thrown_cell(row, cell, usage, &args),
        Act::Go
        | Act::Test { .. }
        | Act::Copy { .. }
        | Act::TakeResult { .. }
        | Act::Write { .. }
        | Act::Fill { .. }
        | Act::ReadSlot { .. }
        | Act::WriteSlot { .. }
        | Act::Give { .. }
        | Act::Check { .. }
        | Act::Throw { .. }
        | Act::Return { .. } => row.tag(cell),
    }
}

/// The tag of a caller's cell after a call of application methods, whose reach stores to the lock fields of the
/// mask `gone`: bit l for lock field l.
pub fn tag_called(gone: u64, tag: Tag) -> Tag
    ensures { result ≡ spec.called_change (in_lock_mask gone) tag }
{
    match tag {
        Tag::Held(_) => Tag::Any,
        Tag::Field(lock) if has_lock(gone, lock) => Tag::Mixed,
        _ => tag,
    }
}

// ---- cells

// A cell after a register was set.
fn set_cell<R: Row>(row: &R, cell: usize, to: usize, tag: Tag) -> Tag
    requires { cell < length (R.tags row.now) }
    ensures { result ≡ spec.tag_in (slice_set (R.tags row.now) to tag) cell }
{
    if cell == to { tag } else { row.tag(cell) }
}

// A cell after a register, or it and the next one, was set.
fn put_cell<R: Row>(row: &R, cell: usize, to: u32, wide: bool, pair: (Tag, Tag)) -> Tag
    requires { cell < length (R.tags row.now) }
    ensures { result ≡ spec.tag_in (spec.put wide (R.tags row.now) to pair.0 pair.1) cell }
{
    let to = to as usize;
    if wide && cell == to + 1 {
        pair.1
    } else {
        set_cell(row, cell, to, pair.0)
    }
}

// A cell after the result cell was set.
fn result_cell<R: Row>(row: &R, cell: usize, tag: Tag) -> Tag
    requires { cell < length (R.tags row.now) }
    ensures { result ≡ spec.tag_in (slice_set (R.tags row.now) (spec.result_cell (R.tags row.now)) tag) cell }
{
    set_cell(row, cell, row.cells() - 1, tag)
}

fn result_of<R: Row>(row: &R) -> Tag
    requires { 0 < length (R.tags row.now) }
    ensures { result ≡ spec.tag_in (R.tags row.now) (spec.result_cell (R.tags row.now)) }
{
    row.tag(row.cells() - 1)
}

// A cell after a store to a lock field.
fn stored_cell<R: Row>(row: &R, cell: usize, from: u32, lock: LockNo) -> Tag
    requires { cell < length (R.tags row.now) }
    ensures { result ≡ spec.tag_in (spec.after_stored (R.tags row.now) from lock (spec.tag_in (R.tags row.now) from)) cell }
{
    let stored = row.tag(from as usize);
    match stored {
        Tag::New(_) if cell == from as usize => Tag::Field(lock),
        _ => stored_change(lock, stored, row.tag(cell)),
    }
}

// A cell where a call threw.
fn thrown_cell<R: Row>(row: &R, cell: usize, usage: LockUse, args: &Args) -> Tag
    requires { cell < length (R.tags row.now) }
    ensures { result ≡ spec.tag_in (map (spec.call_change usage (spec.tag_in (R.tags row.now) (receiver_of args.now))) (R.tags row.now)) cell }
{
    call_change(usage, receiver_tag(row, args), row.tag(cell))
}

// A cell after a call that leads outside.
fn call_cell<R: Row>(row: &R, cell: usize, site: u32, call: (LockUse, Args, Gives)) -> Tag
    requires { cell < length (R.tags row.now) }
    ensures { let tags = R.tags row.now in
        let receiver = spec.tag_in tags (receiver_of call.1) in
        result ≡ spec.tag_in (slice_set (map (spec.call_change call.0 receiver) tags) (spec.result_cell tags) (spec.result_tag site call.0 call.2 receiver)) cell }
{
    let (usage, args, gives) = call;
    if cell == row.cells() - 1 {
        result_tag(site, usage, gives, receiver_tag(row, &args))
    } else {
        thrown_cell(row, cell, usage, &args)
    }
}

/// The tag of a call's receiver.
pub fn receiver_tag<R: Row>(row: &R, args: &Args) -> Tag
    ensures { result ≡ spec.tag_in (R.tags row.now) (receiver_of args.now) }
{
    match args {
        Args::List { registers, .. } => row.tag(registers[0] as usize),
        Args::Range { first, .. } => row.tag(*first as usize),
    }
}

// Whether a set of lock fields has one.
fn has_lock(mask: u64, lock: LockNo) -> bool
    ensures { result ≡ in_lock_mask mask lock.0 }
{
    lock.0 < 64 && (mask >> lock.0) & 1 == 1
}

// ---- what is written

fn written_tag(written: Written) -> Tag
    ensures { result ≡ spec.written_tag written }
{
    match written {
        Written::Zero => Tag::Zero,
        Written::Number | Written::Reference | Written::Pair => Tag::Any,
        Written::Nonzero
        | Written::FreeObject
        | Written::Text
        | Written::ClassObject
        | Written::Typed(_) => Tag::Solid,
    }
}

fn is_pair(written: Written) -> bool
    ensures { result ≡ spec.is_pair written }
{
    matches!(written, Written::Pair)
}

// ---- one tag

/// What a lock call does to a tag, by the tag of its receiver.
pub fn call_change(usage: LockUse, receiver: Tag, tag: Tag) -> Tag
    ensures { result ≡ spec.call_change usage receiver tag }
{
    match usage {
        LockUse::Acquire | LockUse::Release => held_change(receiver, tag),
        LockUse::Plain | LockUse::Make | LockUse::IsHeld | LockUse::Mode | LockUse::Wrong => tag,
    }
}

fn held_change(receiver: Tag, tag: Tag) -> Tag
    ensures { result ≡ spec.held_change receiver tag }
{
    match (receiver, tag) {
        (Tag::Field(lock), Tag::Held(held)) => without_held(lock, held),
        (Tag::Mixed, Tag::Held(_)) => Tag::Any,
        _ => tag,
    }
}

fn without_held(lock: LockNo, held: LockNo) -> Tag
    ensures { result ≡ spec.without_held lock.0 held }
{
    if held.0 == lock.0 {
        Tag::Any
    } else {
        Tag::Held(held)
    }
}

/// What a store to a lock field does to a tag, by the tag of the stored value.
pub fn stored_change(lock: LockNo, stored: Tag, tag: Tag) -> Tag
    ensures { result ≡ spec.stored_change lock.0 stored tag }
{
    match tag {
        Tag::Held(held) => without_held(lock, held),
        Tag::Field(field) => field_after(stored, lock, field),
        Tag::New(site) => new_after(stored, site),
        _ => tag,
    }
}

// What the field held before the store.
fn field_after(stored: Tag, lock: LockNo, field: LockNo) -> Tag
    ensures { result ≡ spec.field_after stored lock.0 field }
{
    if stored != Tag::Bot && field.0 == lock.0 {
        Tag::Mixed
    } else {
        Tag::Field(field)
    }
}

// A new lock, of which a copy may have been stored.
fn new_after(stored: Tag, site: u32) -> Tag
    ensures { result ≡ spec.new_after stored site }
{
    match stored {
        Tag::Bot | Tag::Zero => Tag::New(site),
        Tag::New(other) if site != other => Tag::New(site),
        _ => Tag::Mixed,
    }
}

// The tag of a call's result.
fn result_tag(site: u32, usage: LockUse, gives: Gives, receiver: Tag) -> Tag
    ensures { result ≡ spec.result_tag site usage gives receiver }
{
    match usage {
        LockUse::Plain | LockUse::Wrong => given_tag(gives),
        LockUse::Make => Tag::New(site),
        LockUse::Acquire | LockUse::Release | LockUse::Mode => Tag::Zero,
        LockUse::IsHeld => held_tag(receiver),
    }
}

fn given_tag(gives: Gives) -> Tag
    ensures { result ≡ spec.given_tag gives }
{
    match gives {
        Gives::Nothing => Tag::Zero,
        Gives::Number | Gives::Object => Tag::Any,
    }
}

// Of isHeld, by the tag of its receiver.
fn held_tag(receiver: Tag) -> Tag
    ensures { result ≡ spec.held_tag receiver }
{
    match receiver {
        Tag::Bot => Tag::Bot,
        Tag::Field(lock) => Tag::Held(lock),
        _ => Tag::Any,
    }
}
