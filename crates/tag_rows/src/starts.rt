//! The rows at the start of methods.
ghost use Rattle.std.specs.Prelude.{◌≡◌, ◌<◌, ◌≤◌, ◌-◌, min, Option, Some, None, length, slice_get, slice_index_or};
ghost use Rattle.dalvik.specs.Descriptors as descriptors;
ghost use Rattle.dalvik.specs.Registers.{args_of};
ghost use Rattle.app_model.specs.Sound.{params_len};
ghost use Rattle.act_model.specs.Changes.{tag_in};
ghost use Rattle.act_model.specs.Entries as entries;
ghost use Rattle.tag_rows.specs.Entering.{word_no, word_tag};

use act_model::Row;
use app_model::{App, By, MethodRow, Tag};
use dalvik::Args;
use ns_base::ProtoNo;

/// What is handed on of a tag: of a lock's being held nothing.
pub fn entering(tag: Tag) -> Tag
    ensures { result ≡ entries.entering tag }
{
    match tag {
        Tag::Held(_) => Tag::Any,
        _ => tag,
    }
}

// The word of the arguments that a register has.
fn word_no(method: &MethodRow, register: usize) -> Option<usize>
    requires { method.now.ins ≤ method.now.registers }
    ensures { result ≡ word_no method.now.registers method.now.ins register }
{
    let registers = method.registers as usize;
    let first = registers - method.ins as usize;
    if register < first {
        None
    } else if register < registers {
        Some(register - first)
    } else {
        None
    }
}

// ---- calls

fn arg_at(args: &Args, k: usize) -> Option<usize>
    ensures { result ≡ slice_get (args_of args.now) k }
{
    match args {
        Args::List { count, registers } => {
            if k < *count as usize {
                listed(registers, k)
            } else {
                None
            }
        }
        Args::Range { first, count } => {
            if k < *count as usize {
                Some(*first as usize + k)
            } else {
                None
            }
        }
    }
}

fn listed(registers: &[u32], k: usize) -> Option<usize>
    ensures { result ≡ slice_get registers.now k }
{
    let register = registers.get(k)?;
    Some(*register as usize)
}

fn argument_tag<R: Row>(row: &R, args: &Args, k: usize) -> Tag
    ensures { result ≡ slice_index_or (entries.entering_words (R.tags row.now) (args_of args.now)) k Tag.Zero }
{
    match arg_at(args, k) {
        Some(register) => entering(row.tag(register)),
        None => Tag::Zero,
    }
}

fn call_word<R: Row>(row: &R, by: By, args: &Args, k: usize) -> Tag
    ensures { result ≡ slice_index_or (entries.call_words by (R.tags row.now) args.now) k Tag.Zero }
{
    match by {
        By::Static => argument_tag(row, args, k),
        By::Virtual | By::Super | By::Direct => {
            if k == 0 {
                Tag::Solid
            } else {
                argument_tag(row, args, k)
            }
        }
    }
}

/// The tag of a register of a callee.
pub fn called_tag<R: Row>(row: &R, by: By, args: &Args, method: &MethodRow, register: usize) -> Tag
    requires ins { method.now.ins ≤ method.now.registers }
    requires register { register ≤ method.now.registers }
    ensures { result ≡ tag_in (entries.entry_row Tag.Zero method.now.registers method.now.ins (entries.call_words by (R.tags row.now) args.now)) register }
{
    match word_no(method, register) {
        Some(k) => call_word(row, by, args, k),
        None => Tag::Zero,
    }
}

// ---- callbacks

// How many registers the parameters of a prototype take, and at most so many.
fn parameter_words(app: &App, proto: ProtoNo, most: u32) -> u32
    requires proto { proto.0 < length app.now.protos }
    requires most { most ≤ 65535 }
    ensures { result ≡ min (params_len app.now (slice_get app.now.protos proto.0)) most }
{
    let params = app.proto(proto).params.as_slice();
    let mut words = 0;
    for i in 0..params.len() {
        words = most.min(words + words_of(app.type_text(params[i])));
    }
    words
}

// How many registers a value of a type takes.
fn words_of(name: &[u8]) -> u32
    ensures words { result ≡ descriptors.words_of name.now }
    ensures few { result ≤ 2 }
{
    match name {
        [b'V'] => 0,
        [b'J' | b'D', ..] => 2,
        _ => 1,
    }
}

fn callback_word(app: &App, method: &MethodRow, k: usize) -> Tag
    requires proto { method.now.proto.0 < length app.now.protos }
    requires k { k < method.now.ins }
    ensures { result ≡ slice_index_or (entries.callback_words app.now method.now) k Tag.Zero }
{
    if k == 0 {
        return Tag::Solid;
    }
    let words = parameter_words(app, method.proto, method.ins as u32);
    if k - 1 < words as usize {
        Tag::Any
    } else {
        Tag::Zero
    }
}

/// The tag of a register of a callback.
pub fn callback_tag(app: &App, method: &MethodRow, register: usize) -> Tag
    requires proto { method.now.proto.0 < length app.now.protos }
    requires ins { method.now.ins ≤ method.now.registers }
    requires register { register ≤ method.now.registers }
    ensures { result ≡ tag_in (entries.callback_row app.now (Some method.now)) register }
{
    match word_no(method, register) {
        Some(k) => callback_word(app, method, k),
        None => Tag::Zero,
    }
}
