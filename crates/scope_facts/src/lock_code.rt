//! What the instructions of each method do with locks.
ghost use Rattle.std.specs.Prelude.{◌≡◌, ◌<◌, ◌↔◌, ◌==◌, ℕ, List, IfOk, length, option_map, true, Some};
ghost use Rattle.std.specs.Int.{bit_at};
ghost use Rattle.ns_base.specs.declared.rows.LockNo.{LockNo};
ghost use Rattle.app_model.specs.Targets as targets;
ghost use Rattle.app_model.specs.Words.{code_len};
ghost use Rattle.flow_model.specs.Breaks as breaks;
ghost use Rattle.scope_facts.specs.LockCode.{AreLockWords, IsLockWord};
ghost use Rattle.scope_facts.specs.Texts.{AreNames, IsName};

use crate::fields::field_of_lock;
use crate::names::NameRow;
use app_model::{App, LockUse};
use dalvik::{Ins, opcode};
use ns_base::{LockNo, MethodNo};
use std::alloc::{AllocError, Global};

fn is_plain(usage: LockUse) -> bool
    ensures { result ≡ targets.is_plain usage }
{
    matches!(usage, LockUse::Plain)
}

/// Whether an instruction is a call of a lock's method, or an access to a lock field.
#[tactic(auto, unfolding(flow_model::specs::Breaks::is_lock_ins))]
pub fn is_lock_ins(app: &App, method: MethodNo, index: u32) -> bool
    requires method { method.0 < length app.now.methods }
    requires index { index < code_len app.now method.0 }
    ensures { result ≡ breaks.is_lock_ins app.now method.0 index }
{
    !is_plain(app.lock_use(method, index)) || app.slot(method, index).is_some()
}

// Whether an instruction is a store of the form that initialises fields in a method of this name.
fn is_store_in(name: NameRow, ins: Ins) -> bool
    ensures { (text : List ℕ) → IsName text name → result ≡ breaks.is_store_in text (Some ins) }
{
    match ins {
        Ins::StaticPut { op, .. } => op == opcode::SPUT_OBJECT && name.class_init,
        Ins::FieldPut { op, .. } => op == opcode::IPUT_OBJECT && name.init,
        _ => false,
    }
}

// Whether a lock field is one of the method's own class.
fn is_own_slot(app: &App, method: MethodNo, slot: Option<LockNo>) -> bool
    requires { method.0 < length app.now.methods }
    ensures { result ≡ breaks.is_own_slot app.now method.0 (option_map (λ (l : LockNo). l.0) slot) }
{
    let Some(lock) = slot else {
        return false;
    };
    match field_of_lock(app, lock) {
        Some(field) => field.class.0 == app.method(method).class.0,
        None => false,
    }
}

fn is_own_store(app: &App, name: NameRow, method: MethodNo, index: u32) -> bool
    requires method { method.0 < length app.now.methods }
    requires index { index < code_len app.now method.0 }
    requires name { IsName (breaks.method_name app.now method.0) name }
    ensures { result ≡ breaks.is_own_store app.now method.0 index }
{
    let (_, ins) = app.ins(method, index);
    is_store_in(name, ins) && is_own_slot(app, method, app.slot(method, index))
}

/// The row of a method's name.
#[tactic(auto, unfolding(flow_model::specs::Breaks::method_name))]
pub fn name_of(app: &App, names: &[NameRow], method: MethodNo) -> NameRow
    requires method { method.0 < length app.now.methods }
    requires names { AreNames app.now names.now }
    ensures { IsName (breaks.method_name app.now method.0) result }
{
    names[app.method(method).name.0 as usize]
}

// Bit 0 and bit 1.
fn word_of(first: bool, second: bool) -> u64
    ensures first { (bit_at result 0 ≡ 1) ↔ (first ≡ true) }
    ensures second { (bit_at result 1 ≡ 1) ↔ (second ≡ true) }
{
    match (first, second) {
        (false, false) => 0,
        (true, false) => 1,
        (false, true) => 2,
        (true, true) => 3,
    }
}

// Bit 0 where a method has a lock instruction, bit 1 where it has one that is no initialiser store.
fn lock_word(app: &App, names: &[NameRow], method: MethodNo) -> u64
    requires method { method.0 < length app.now.methods }
    requires names { AreNames app.now names.now }
    ensures { IsLockWord app.now method.0 result }
{
    let name = name_of(app, names, method);
    let mut locks = false;
    let mut others = false;
    for index in 0..app.code_len(method) {
        let is_lock = is_lock_ins(app, method, index);
        locks |= is_lock;
        others |= is_lock && !is_own_store(app, name, method, index);
    }
    word_of(locks, others)
}

/// Such a word for each method.
pub fn lock_words(alloc: Global, app: &App, names: &[NameRow]) -> Result<Vec<u64>, AllocError>
    requires { AreNames app.now names.now }
    ensures { IfOk result (λ words. AreLockWords app.now words.items) }
{
    let mut words = Vec::with_capacity(alloc, app.method_count() as usize)?;
    for method in 0..app.method_count() {
        words.push(lock_word(app, names, MethodNo(method)))?;
    }
    Ok(words)
}

/// Whether a method, or those whose words were gathered, has a lock instruction.
pub fn has_locks(word: u64) -> bool
    ensures { result ≡ (bit_at word 0 == 1) }
{
    word & 1 == 1
}

/// The same of one that is no initialiser store.
pub fn has_others(word: u64) -> bool
    ensures { result ≡ (bit_at word 1 == 1) }
{
    (word >> 1) & 1 == 1
}
