//! What the rules ask of each type.
ghost use Rattle.std.specs.Prelude.{◌≡◌, ◌<◌, ◌||◌, ◌↔◌, IfOk, length, true, bytes_eq, codes, slice_get};
ghost use Rattle.std.specs.List.{list_any};
ghost use Rattle.ns_base.specs.declared.rows.TypeNo.{TypeNo};
ghost use Rattle.app_model.specs.Hierarchy.{is_sub};
ghost use Rattle.app_model.specs.Names.{type_text};
ghost use Rattle.class_graph.specs.Belongs.{IsClassGraph};
ghost use Rattle.flow_model.specs.Breaks as breaks;
ghost use Rattle.scope_facts.specs.Bits.{Tells, HoldsBelow};
ghost use Rattle.scope_facts.specs.Texts.{AreKinds, IsKind, AreThreads, IsBelowLock, is_thread_name};

use crate::bits::bit_if;
use crate::fields::{field_of_lock, lock_count};
use app_model::App;
use class_graph::ClassGraph;
use ns_base::{ClassNo, LockNo, TypeNo};
use std::alloc::{AllocError, Global};

/// What a type is: System, Class, a type whose methods reflect or load, Executors, or a thread or below one. `above`
/// has the lock fields whose class it is or stands below.
#[derive(Clone, Copy)]
pub struct KindRow {
    pub system: bool,
    pub class: bool,
    pub reflective: bool,
    pub executors: bool,
    pub thread: bool,
    pub above: u64,
}

#[tactic(auto, unfolding(crate::specs::Texts::is_thread_name))]
fn is_thread_name(name: &[u8]) -> bool
    ensures { result ≡ is_thread_name name.now }
{
    name == b"Ljava/lang/Thread;".as_slice()
        || name == b"Ljava/util/Timer;".as_slice()
        || name == b"Ljava/util/concurrent/Executor;".as_slice()
        || name == b"Ljava/util/concurrent/ExecutorService;".as_slice()
        || name == b"Ljava/util/concurrent/ThreadPoolExecutor;".as_slice()
        || name == b"Landroid/os/AsyncTask;".as_slice()
        || name == b"Landroid/os/HandlerThread;".as_slice()
        || name == b"Landroid/app/IntentService;".as_slice()
}

// The types of threads, of which there are few.
fn threads_of(alloc: Global, app: &App) -> Result<Vec<TypeNo>, AllocError>
    ensures { IfOk result (λ threads. AreThreads app.now (length app.now.types) threads.items) }
{
    let mut threads = Vec::new(alloc);
    for t in 0..app.type_count() {
        if is_thread_name(app.type_text(TypeNo(t))) {
            threads.push(TypeNo(t))?;
        }
    }
    Ok(threads)
}

fn is_thread(app: &App, classes: &ClassGraph, threads: &[TypeNo], kind: TypeNo) -> bool
    requires classes { IsClassGraph app.now classes.now }
    requires threads { AreThreads app.now (length app.now.types) threads.now }
    ensures { result ≡ breaks.is_thread app.now kind.0 }
{
    for i in 0..threads.len() {
        if classes.is_sub(kind, threads[i]) {
            return true;
        }
    }
    false
}

fn begins_with(text: &[u8], front: &[u8]) -> bool
    ensures { result ≡ breaks.begins_with front.now text.now }
{
    text.len() >= front.len() && text.split_at(front.len()).0 == front
}

fn is_reflective(text: &[u8]) -> bool
    ensures { result ≡ (breaks.begins_with (codes "Ljava/lang/reflect/") text.now || list_any (bytes_eq text.now) breaks.loader_names) }
{
    begins_with(text, b"Ljava/lang/reflect/")
        || text == b"Ljava/lang/ClassLoader;".as_slice()
        || text == b"Ldalvik/system/DexClassLoader;".as_slice()
        || text == b"Ldalvik/system/PathClassLoader;".as_slice()
}

// Whether a class is a type, or stands above it.
fn is_type_below(app: &App, classes: &ClassGraph, kind: TypeNo, class: ClassNo) -> bool
    requires { IsClassGraph app.now classes.now }
    ensures { result ≡ breaks.is_type_below app.now kind.0 (slice_get app.now.classes class.0) }
{
    class.0 < app.class_count() && classes.is_sub(kind, app.class(class).name)
}

// The same of the class of a lock field.
fn is_below(app: &App, classes: &ClassGraph, kind: TypeNo, lock: LockNo) -> bool
    requires { IsClassGraph app.now classes.now }
    ensures { (result ≡ true) ↔ IsBelowLock app.now kind.0 lock.0 }
{
    match field_of_lock(app, lock) {
        Some(field) => is_type_below(app, classes, kind, field.class),
        None => false,
    }
}

fn above_of(app: &App, classes: &ClassGraph, kind: TypeNo) -> u64
    requires classes { IsClassGraph app.now classes.now }
    ensures { Tells result (IsBelowLock app.now kind.0) }
{
    let mut above = 0;
    for l in 0..lock_count(app) {
        above |= bit_if(is_below(app, classes, kind, LockNo(l)), LockNo(l));
    }
    above
}

fn row_of(app: &App, classes: &ClassGraph, threads: &[TypeNo], kind: TypeNo) -> KindRow
    requires classes { IsClassGraph app.now classes.now }
    requires threads { AreThreads app.now (length app.now.types) threads.now }
    ensures { IsKind app.now kind.0 result }
{
    let text = app.type_text(kind);
    KindRow {
        system: text == b"Ljava/lang/System;".as_slice(),
        class: text == b"Ljava/lang/Class;".as_slice(),
        reflective: is_reflective(text),
        executors: text == b"Ljava/util/concurrent/Executors;".as_slice(),
        thread: is_thread(app, classes, threads, kind),
        above: above_of(app, classes, kind),
    }
}

/// A row for each type.
pub fn kind_rows(alloc: Global, app: &App, classes: &ClassGraph) -> Result<Vec<KindRow>, AllocError>
    requires { IsClassGraph app.now classes.now }
    ensures { IfOk result (λ kinds. AreKinds app.now kinds.items) }
{
    let threads = threads_of(alloc, app)?;
    let mut kinds = Vec::with_capacity(alloc, app.type_count() as usize)?;
    for t in 0..app.type_count() {
        kinds.push(row_of(app, classes, &threads, TypeNo(t)))?;
    }
    Ok(kinds)
}

/// The row of a type.
pub fn kind_at(app: &App, kinds: &[KindRow], kind: TypeNo) -> KindRow
    requires kinds { AreKinds app.now kinds.now }
    requires kind { kind.0 < length app.now.types }
    ensures { IsKind app.now kind.0 result }
{
    kinds[kind.0 as usize]
}
