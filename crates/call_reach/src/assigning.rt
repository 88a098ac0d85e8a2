//! The lock fields to which the reach of each method stores.
ghost use Rattle.std.specs.Prelude.{◌≡◌, ◌<◌, ◌+◌, ◌≤◌, ◌↔◌, ℕ, IfOk, Some, length, replicate};
ghost use Rattle.std.specs.Int.{bit_at};
ghost use Rattle.app_model.specs.Reach.{StoresAt, is_object_store};
ghost use Rattle.app_model.specs.Targets.{IsCallGraph};
ghost use Rattle.app_model.specs.Words.{code_len};
ghost use Rattle.call_reach.specs.Starts.{AreAssigned, AreStores, Stores};

use crate::gathering::gathers;
use app_model::{App, CallGraph};
use dalvik::{Ins, opcode};
use ns_base::{LockNo, MethodNo, OutOfMemory};
use std::alloc::{AllocError, Global};

fn is_object_store(ins: Ins) -> bool
    ensures { result ≡ is_object_store (Some ins) }
{
    match ins {
        Ins::FieldPut { op, .. } => op == opcode::IPUT_OBJECT,
        Ins::StaticPut { op, .. } => op == opcode::SPUT_OBJECT,
        _ => false,
    }
}

// No application has more than 64 lock fields.
fn bit_of(lock: LockNo) -> u64
    ensures { (l : ℕ) → l < 64 → (bit_at result l ≡ 1) ↔ (lock.0 ≡ l) }
{
    if lock.0 < 64 { 1 << lock.0 } else { 0 }
}

// The lock field to which an instruction stores, as a bit.
fn store_at(app: &App, method: MethodNo, index: u32) -> u64
    requires method { method.0 < length app.now.methods }
    requires index { index < code_len app.now method.0 }
    ensures { (l : ℕ) → l < 64 → (bit_at result l ≡ 1) ↔ StoresAt app.now method.0 index l }
{
    let (_, ins) = app.ins(method, index);
    if !is_object_store(ins) {
        return 0;
    }
    match app.slot(method, index) {
        Some(lock) => bit_of(lock),
        None => 0,
    }
}

fn stores_of(app: &App, method: MethodNo) -> u64
    requires { method.0 < length app.now.methods }
    ensures { (l : ℕ) → l < 64 → (bit_at result l ≡ 1) ↔ Stores app.now method.0 l }
{
    let mut mask = 0;
    for index in 0..app.code_len(method) {
        mask |= store_at(app, method, index);
    }
    mask
}

fn own_stores(app: &App, words: &mut [u64])
    requires { length app.now.methods ≤ length words.old }
    ensures { AreStores app.now (length app.now.methods) words.old words.new }
{
    for method in 0..app.method_count() {
        words[method as usize] = stores_of(app, MethodNo(method));
    }
}

// A word for each method: its own stores.
fn own_words(alloc: Global, app: &App) -> Result<Vec<u64>, AllocError>
    ensures { IfOk result (λ words. AreStores app.now (length app.now.methods) (replicate (length app.now.methods) 0) words.items) }
{
    let mut words = vec![in alloc; 0; app.method_count() as usize]?;
    own_stores(app, &mut words);
    Ok(words)
}

/// For each method a mask: bit l where the method or one that its calls reach stores to lock field l.
/// More than 4,294,967,294 methods and sets of targets count as want of memory.
pub fn assigns(alloc: Global, app: &App, graph: &CallGraph) -> Result<Vec<u64>, OutOfMemory>
    requires { IsCallGraph app.now graph.now }
    ensures { IfOk result (λ masks. AreAssigned app.now graph.now masks.items) }
{
    match own_words(alloc, app) {
        Ok(words) => gathers(alloc, app, graph, words),
        Err(AllocError) => Err(OutOfMemory),
    }
}
