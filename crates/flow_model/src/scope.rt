//! Tests of the scope rules on one instruction, by the tags before it.
ghost use Rattle.std.specs.Prelude.{◌≡◌, ◌<◌, ◌≤◌, ◌&&◌, nat_le, Some};
ghost use Rattle.flow_model.specs.Scope as spec;
ghost use Rattle.act_model.specs.Changes.{tag_in};
ghost use Rattle.dalvik.specs.Calls.{args_len, arg_at};

use crate::passes::{is_lock_call, is_slot};
use act_model::{Act, Row, receiver_tag};
use app_model::{LockUse, Tag};
use dalvik::Args;
use ns_base::LockNo;

/// Whether a lock goes where it is not followed: into a call, another field, an array or a throw, or a lock field that
/// does not take it.
pub fn is_escape<R: Row>(act: &Act, row: &R) -> bool
    ensures { result ≡ spec.is_escape (Some act.now) (R.tags row.now) }
{
    match *act {
        Act::Call { usage, args, .. } => call_escapes(is_lock_call(usage), row, &args),
        Act::WriteSlot { from, .. } => !may_be_stored(row.tag(from as usize)),
        Act::Give { from, .. } => may_be_lock(row.tag(from as usize)),
        Act::Fill { args, .. } => passes_lock(row, &args, 0),
        Act::Throw { object } => may_be_lock(row.tag(object as usize)),
        Act::Go
        | Act::Test { .. }
        | Act::Copy { .. }
        | Act::TakeResult { .. }
        | Act::Write { .. }
        | Act::ReadSlot { .. }
        | Act::Check { .. }
        | Act::Return { .. } => false,
    }
}

/// Whether a call of a lock's method has an unknown form, or a receiver that is no lock.
pub fn is_wrong_call<R: Row>(act: &Act, row: &R) -> bool
    ensures { result ≡ spec.is_wrong_call (Some act.now) (R.tags row.now) }
{
    match *act {
        Act::Call {
            usage: LockUse::Wrong,
            ..
        } => true,
        Act::Call { usage, args, .. } => {
            is_lock_call(usage) && is_no_lock(receiver_tag(row, &args))
        }
        _ => false,
    }
}

/// Whether a new lock is stored into a lock field.
pub fn stores_new<R: Row>(lock: LockNo, act: &Act, row: &R) -> bool
    ensures { result ≡ spec.stores_new lock.0 (Some act.now) (R.tags row.now) }
{
    match *act {
        Act::WriteSlot { from, slot, .. } => is_slot(lock, slot) && is_new(row.tag(from as usize)),
        _ => false,
    }
}

fn call_escapes<R: Row>(on_lock: bool, row: &R, args: &Args) -> bool
    ensures { result ≡ spec.call_escapes on_lock (R.tags row.now) args.now }
{
    if on_lock {
        escapes_as_receiver(receiver_tag(row, args)) || passes_lock(row, args, 1)
    } else {
        passes_lock(row, args, 0)
    }
}

// Whether an argument of that number or a later one may be a lock.
fn passes_lock<R: Row>(row: &R, args: &Args, from: u32) -> bool
    ensures { result ≡ spec.passes_lock (R.tags row.now) args.now from }
{
    for k in 0..arg_count(args) {
        if is_lock_argument(row, args, from, k) {
            return true;
        }
    }
    false
}

fn is_lock_argument<R: Row>(row: &R, args: &Args, from: u32, k: u32) -> bool
    ensures { result ≡ (nat_le from k && spec.may_be_lock (tag_in (R.tags row.now) (arg_at args.now k))) }
{
    from <= k && may_be_lock(argument_tag(row, args, k))
}

fn arg_count(args: &Args) -> u32
    ensures { result ≡ args_len args.now }
{
    match args {
        Args::List { count, .. } => u32::from(*count),
        Args::Range { count, .. } => *count,
    }
}

// The tag of an argument.
fn argument_tag<R: Row>(row: &R, args: &Args, k: u32) -> Tag
    ensures { result ≡ tag_in (R.tags row.now) (arg_at args.now k) }
{
    match args {
        Args::List { registers, .. } => match registers.get(k as usize) {
            Some(register) => row.tag(*register as usize),
            None => row.tag(0),
        },
        Args::Range { first, .. } => row.tag(*first as usize + k as usize),
    }
}

fn may_be_lock(tag: Tag) -> bool
    ensures { result ≡ spec.may_be_lock tag }
{
    match tag {
        Tag::Field(_) | Tag::New(_) | Tag::Mixed => true,
        Tag::Bot | Tag::Zero | Tag::Solid | Tag::Held(_) | Tag::Any => false,
    }
}

fn may_be_stored(tag: Tag) -> bool
    ensures { result ≡ spec.may_be_stored tag }
{
    match tag {
        Tag::Bot | Tag::Zero | Tag::New(_) => true,
        Tag::Solid | Tag::Held(_) | Tag::Any | Tag::Field(_) | Tag::Mixed => false,
    }
}

fn escapes_as_receiver(tag: Tag) -> bool
    ensures { result ≡ spec.escapes_as_receiver tag }
{
    matches!(tag, Tag::New(_) | Tag::Mixed)
}

fn is_no_lock(tag: Tag) -> bool
    ensures { result ≡ spec.is_no_lock tag }
{
    matches!(tag, Tag::Solid | Tag::Any | Tag::Held(_))
}

fn is_new(tag: Tag) -> bool
    ensures { result ≡ spec.is_new tag }
{
    matches!(tag, Tag::New(_))
}
