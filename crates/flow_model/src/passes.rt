//! With which statuses of the lock under solution an instruction goes on, and with which it throws.
ghost use Rattle.std.specs.Prelude.{◌≡◌, ◌<◌, ◌+◌, ◌==◌, Some, slice_index};
ghost use Rattle.dalvik.specs.Calls as registers;
ghost use Rattle.dalvik.specs.Calls.{argument_of};
ghost use Rattle.app_model.specs.Masks.{in_mask};
ghost use Rattle.act_model.specs.Changes.{tag_in};
ghost use Rattle.flow_model.specs.Passes as spec;
ghost use Rattle.flow_model.specs.Policy as policy;
ghost use Rattle.flow_model.specs.Status as table;

use crate::masks::has_status;
use crate::status;
use act_model::{Act, Row, Throws, op_of, receiver_tag};
use app_model::{By, LockUse, Tag};
use dalvik::Args;
use ns_base::LockNo;

/// What a tag says of null.
#[derive(Clone, Copy)]
pub enum Nullness {
    /// No value comes here.
    Nothing,
    Null,
    NotNull,
    /// What the lock field under solution holds.
    Own,
    Unknown,
}

/// The statuses, as a mask, with which an act leads to its successor number `to` from a status. `outside` says
/// whether a call may lead outside.
pub fn pass_mask<R: Row>(lock: LockNo, act: &Act, row: &R, outside: bool, to: u32, status: u8) -> u8
    requires { status < 8 }
    ensures { result ≡ spec.passes lock.0 act.now (R.tags row.now) outside to status }
{
    match *act {
        Act::Go | Act::Copy { .. } | Act::TakeResult { .. } | Act::Fill { .. } => only(status),
        Act::Test { value, zero } => test_passes(lock, row.tag(value as usize), to == zero, status),
        Act::Write { throws, .. }
        | Act::ReadSlot { throws, .. }
        | Act::Give { throws, .. }
        | Act::Check { throws } => passes_by(lock, throws, row, status),
        Act::WriteSlot { from, slot, throws } => write_passes(
            lock,
            throws,
            row,
            (from, slot),
            status,
        ),
        Act::Throw { .. } | Act::Return { .. } => 0,
        Act::Call {
            by,
            usage,
            args,
            ..
        } => {
            let receiver = receiver_of(lock, (usage, by), row, &args);
            call_passes(usage, outside, receiver, argument_tag(row, &args), status)
        }
    }
}

/// The statuses, as a mask, with which an act throws from a status.
pub fn throw_mask<R: Row>(lock: LockNo, act: &Act, row: &R, outside: bool, status: u8) -> u8
    requires { status < 8 }
    ensures { result ≡ spec.throws lock.0 act.now (R.tags row.now) outside status }
{
    match *act {
        Act::Write { throws, .. }
        | Act::ReadSlot { throws, .. }
        | Act::WriteSlot { throws, .. }
        | Act::Give { throws, .. }
        | Act::Check { throws } => throws_by(lock, throws, row, status),
        Act::Throw { .. } => only(status),
        Act::Call {
            by,
            usage,
            args,
            ..
        } => {
            let receiver = receiver_of(lock, (usage, by), row, &args);
            call_throws(usage, outside, receiver, argument_tag(row, &args), status)
        }
        Act::Go
        | Act::Test { .. }
        | Act::Copy { .. }
        | Act::TakeResult { .. }
        | Act::Fill { .. }
        | Act::Return { .. } => 0,
    }
}

/// Whether the receiver lets an act, if it is a call, pass at a status, so that its callees are entered.
pub fn is_open<R: Row>(lock: LockNo, act: &Act, row: &R, status: u8) -> bool
    requires { status < 8 }
    ensures { result ≡ spec.is_open_act lock.0 act.now (R.tags row.now) status }
{
    match *act {
        Act::Call {
            by,
            usage,
            args,
            ..
        } => {
            let receiver = receiver_of(lock, (usage, by), row, &args);
            has_status(passes_null(receiver, status), status as usize)
        }
        _ => false,
    }
}

/// Whether an act is a lock call on what the lock field holds, or a store to it.
pub fn is_own<R: Row>(lock: LockNo, act: &Act, row: &R) -> bool
    ensures { result ≡ spec.is_own lock.0 act.now (R.tags row.now) }
{
    match *act {
        Act::Call { usage, args, .. } => is_lock_call(usage)
            && is_field(lock, receiver_tag(row, &args)),
        Act::WriteSlot { slot, .. } => is_slot(lock, slot),
        _ => false,
    }
}

/// Whether an act acquires what the lock field holds.
pub fn acquires<R: Row>(lock: LockNo, act: &Act, row: &R) -> bool
    ensures { result ≡ policy.acquires lock.0 (Some act.now) (R.tags row.now) }
{
    match *act {
        Act::Call {
            usage: LockUse::Acquire,
            args,
            ..
        } => is_field(lock, receiver_tag(row, &args)),
        _ => false,
    }
}

/// The tag of the argument behind the receiver.
fn argument_tag<R: Row>(row: &R, args: &Args) -> Tag
    ensures { result ≡ tag_in (R.tags row.now) (argument_of args.now) }
{
    match args {
        Args::List { registers, .. } => row.tag(registers[1] as usize),
        Args::Range { first, .. } => row.tag(*first as usize + 1),
    }
}

fn is_field(lock: LockNo, tag: Tag) -> bool
    ensures { result ≡ spec.is_field lock.0 tag }
{
    match tag {
        Tag::Field(field) => field.0 == lock.0,
        _ => false,
    }
}

/// Whether a call is one of a lock's methods in a known form.
pub(crate) fn is_lock_call(usage: LockUse) -> bool
    ensures { result ≡ spec.is_lock_call usage }
{
    op_of(usage).is_some()
}

/// Whether a lock field that is read or written is this one.
pub(crate) fn is_slot(lock: LockNo, slot: LockNo) -> bool
    ensures { result ≡ spec.is_slot lock.0 slot }
{
    slot.0 == lock.0
}

// ---- null

fn null_of(lock: LockNo, tag: Tag) -> Nullness
    ensures { result ≡ spec.nullness lock.0 tag }
{
    match tag {
        Tag::Bot => Nullness::Nothing,
        Tag::Zero => Nullness::Null,
        Tag::Solid | Tag::New(_) => Nullness::NotNull,
        Tag::Field(field) if field.0 == lock.0 => Nullness::Own,
        Tag::Field(_) | Tag::Held(_) | Tag::Any | Tag::Mixed => Nullness::Unknown,
    }
}

fn passes_null(of: Nullness, s: u8) -> u8
    requires { s < 8 }
    ensures { result ≡ spec.passes_null of s }
{
    match of {
        Nullness::Nothing | Nullness::Null => 0,
        Nullness::Own => only_in(status::NONZERO_IF_NULL, s),
        Nullness::NotNull | Nullness::Unknown => only(s),
    }
}

fn fails_null(of: Nullness, s: u8) -> u8
    requires { s < 8 }
    ensures { result ≡ spec.fails_null of s }
{
    match of {
        Nullness::Nothing | Nullness::NotNull => 0,
        Nullness::Own => only_in(status::ZERO_IF_NULL, s),
        Nullness::Null | Nullness::Unknown => only(s),
    }
}

fn passes_by<R: Row>(lock: LockNo, throws: Throws, row: &R, s: u8) -> u8
    requires { s < 8 }
    ensures { result ≡ spec.passes_by lock.0 throws (R.tags row.now) s }
{
    match throws {
        Throws::Never | Throws::ByChoice => only(s),
        Throws::WhereZero(register) => passes_null(null_of(lock, row.tag(register as usize)), s),
    }
}

fn throws_by<R: Row>(lock: LockNo, throws: Throws, row: &R, s: u8) -> u8
    requires { s < 8 }
    ensures { result ≡ spec.throws_by lock.0 throws (R.tags row.now) s }
{
    match throws {
        Throws::Never => 0,
        Throws::ByChoice => only(s),
        Throws::WhereZero(register) => fails_null(null_of(lock, row.tag(register as usize)), s),
    }
}

// ---- tests

// A branch of a test against zero, the one that is taken where the value is zero, or the other one.
fn test_passes(lock: LockNo, tag: Tag, zero: bool, s: u8) -> u8
    requires { s < 8 }
    ensures { result ≡ spec.test_passes lock.0 tag zero s }
{
    match tag {
        Tag::Bot => 0,
        Tag::Zero => only_if(zero, s),
        Tag::Solid | Tag::New(_) => only_if(!zero, s),
        Tag::Held(held) if held.0 == lock.0 => {
            by_branch(zero, status::ZERO_IF_HELD, status::NONZERO_IF_HELD, s)
        }
        Tag::Field(field) if field.0 == lock.0 => {
            by_branch(zero, status::ZERO_IF_NULL, status::NONZERO_IF_NULL, s)
        }
        Tag::Held(_) | Tag::Field(_) | Tag::Any | Tag::Mixed => only(s),
    }
}

fn by_branch(zero: bool, if_zero: u8, if_nonzero: u8, s: u8) -> u8
    requires { s < 8 }
    ensures { result ≡ spec.by_branch zero (spec.only_if (in_mask if_zero s) s) (spec.only_if (in_mask if_nonzero s) s) }
{
    if zero {
        only_in(if_zero, s)
    } else {
        only_in(if_nonzero, s)
    }
}

// ---- stores to lock fields

fn write_passes<R: Row>(lock: LockNo, throws: Throws, row: &R, store: (u32, LockNo), s: u8) -> u8
    requires { s < 8 }
    ensures { result ≡ spec.if_passes (spec.passes_by lock.0 throws (R.tags row.now) s) (spec.slot_passes lock.0 store.1 (tag_in (R.tags row.now) store.0) s) }
{
    let (from, slot) = store;
    if passes_by(lock, throws, row, s) == 0 {
        0
    } else {
        slot_passes(lock, slot, row.tag(from as usize), s)
    }
}

fn slot_passes(lock: LockNo, slot: LockNo, stored: Tag, s: u8) -> u8
    requires { s < 8 }
    ensures { result ≡ spec.slot_passes lock.0 slot stored s }
{
    if is_slot(lock, slot) {
        stored_passes(stored, s)
    } else {
        only(s)
    }
}

fn stored_passes(stored: Tag, s: u8) -> u8
    requires { s < 8 }
    ensures { result ≡ spec.stored_passes stored s }
{
    match stored {
        Tag::New(_) => status::STORE_PASSES[s as usize],
        Tag::Zero => status::NULL_PASSES[s as usize],
        _ => 0,
    }
}

// ---- calls

// What the tag of a call's receiver says of null; nothing is null where there is no receiver.
fn receiver_of<R: Row>(lock: LockNo, call: (LockUse, By), row: &R, args: &Args) -> Nullness
    ensures { result ≡ spec.receiver_nullness (spec.has_receiver call.0 call.1) lock.0 (tag_in (R.tags row.now) (registers.receiver_of args.now)) }
{
    let (usage, by) = call;
    if has_receiver(usage, by) {
        null_of(lock, receiver_tag(row, args))
    } else {
        Nullness::NotNull
    }
}

fn has_receiver(usage: LockUse, by: By) -> bool
    ensures { result ≡ spec.has_receiver usage by }
{
    is_lock_call(usage) || is_instance(by)
}

fn is_instance(by: By) -> bool
    ensures { result ≡ spec.is_instance by }
{
    match by {
        By::Static => false,
        By::Virtual | By::Super | By::Direct => true,
    }
}

// A call, by its receiver and the tag of the argument behind it.
fn call_passes(usage: LockUse, outside: bool, receiver: Nullness, argument: Tag, s: u8) -> u8
    requires { s < 8 }
    ensures { result ≡ spec.call_passes usage outside receiver argument s }
{
    match usage {
        LockUse::Plain => passes_outside(outside, receiver, s),
        LockUse::Make | LockUse::Wrong => passes_outside(true, receiver, s),
        LockUse::Acquire => lock_call_passes(&status::ACQUIRE_PASSES, receiver, s),
        LockUse::Release => lock_call_passes(&status::RELEASE_PASSES, receiver, s),
        LockUse::IsHeld => lock_call_passes(&status::IS_HELD_PASSES, receiver, s),
        LockUse::Mode => mode_call_passes(argument, receiver, s),
    }
}

fn call_throws(usage: LockUse, outside: bool, receiver: Nullness, argument: Tag, s: u8) -> u8
    requires { s < 8 }
    ensures { result ≡ spec.call_throws_with usage outside receiver argument s }
{
    match usage {
        LockUse::Plain => throws_outside(outside, receiver, s),
        LockUse::Make | LockUse::Wrong => throws_outside(true, receiver, s),
        LockUse::Acquire => lock_call_throws(&status::ACQUIRE_THROWS, receiver, s),
        LockUse::Release => lock_call_throws(&status::RELEASE_THROWS, receiver, s),
        LockUse::IsHeld => lock_call_throws(&status::CALL_THROWS, receiver, s),
        LockUse::Mode => mode_call_throws(argument, receiver, s),
    }
}

fn passes_outside(outside: bool, receiver: Nullness, s: u8) -> u8
    requires { s < 8 }
    ensures { result ≡ spec.passes_outside outside receiver s }
{
    if outside { passes_null(receiver, s) } else { 0 }
}

fn throws_outside(outside: bool, receiver: Nullness, s: u8) -> u8
    requires { s < 8 }
    ensures { result ≡ spec.throws_outside outside receiver s }
{
    fails_null(receiver, s) | passes_outside(outside, receiver, s)
}

// setReferenceCounted by the tag of its argument.
fn mode_call_passes(argument: Tag, receiver: Nullness, s: u8) -> u8
    requires { s < 8 }
    ensures { result ≡ spec.lock_call_passes (table.mode_passes argument) receiver s }
{
    match argument {
        Tag::Bot => lock_call_passes(&status::NOWHERE, receiver, s),
        Tag::Zero => lock_call_passes(&status::UNCOUNTED_PASSES, receiver, s),
        Tag::Solid => lock_call_passes(&status::COUNTED_PASSES, receiver, s),
        Tag::Held(_) | Tag::Any | Tag::Field(_) | Tag::New(_) | Tag::Mixed => {
            lock_call_passes(&status::EITHER_PASSES, receiver, s)
        }
    }
}

fn mode_call_throws(argument: Tag, receiver: Nullness, s: u8) -> u8
    requires { s < 8 }
    ensures { result ≡ spec.lock_call_throws (table.mode_throws argument) receiver s }
{
    match argument {
        Tag::Bot => lock_call_throws(&status::NOWHERE, receiver, s),
        _ => lock_call_throws(&status::CALL_THROWS, receiver, s),
    }
}

// A lock call by a column of the status table, which counts where its receiver is what the field holds.
fn lock_call_passes(column: &[u8; 8], receiver: Nullness, s: u8) -> u8
    requires { s < 8 }
    ensures { result ≡ spec.lock_call_passes (slice_index column.now) receiver s }
{
    match receiver {
        Nullness::Nothing | Nullness::Null => 0,
        Nullness::Own => column[s as usize],
        Nullness::NotNull | Nullness::Unknown => only(s),
    }
}

fn lock_call_throws(column: &[u8; 8], receiver: Nullness, s: u8) -> u8
    requires { s < 8 }
    ensures { result ≡ spec.lock_call_throws (slice_index column.now) receiver s }
{
    match receiver {
        Nullness::Nothing => 0,
        Nullness::Own => column[s as usize],
        Nullness::Null | Nullness::NotNull | Nullness::Unknown => only(s),
    }
}

// ---- masks

// The mask of one status.
fn only(s: u8) -> u8
    requires { s < 8 }
    ensures { result ≡ table.only s }
{
    status::ONLY[s as usize]
}

fn only_if(there: bool, s: u8) -> u8
    requires { s < 8 }
    ensures { result ≡ spec.only_if there s }
{
    if there { only(s) } else { 0 }
}

// The mask of one status, where another mask has it.
fn only_in(mask: u8, s: u8) -> u8
    requires { s < 8 }
    ensures { result ≡ spec.only_if (in_mask mask s) s }
{
    only_if(has_status(mask, s as usize), s)
}
