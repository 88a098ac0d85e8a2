//! What is known of each lock field before the rules are looked at.
ghost use Rattle.std.specs.Prelude.{◌≡◌, ◌<◌, ◌≤◌, ◌↔◌, IfSome, option_map, length, filter, true, Some, slice_get};
ghost use Rattle.ns_base.specs.declared.rows.TypeNo.{TypeNo};
ghost use Rattle.app_model.specs.Words.{code_len, ins_at};
ghost use Rattle.class_graph.specs.Belongs.{IsClassGraph};
ghost use Rattle.flow_model.specs.Breaks as breaks;
ghost use Rattle.scope_facts.specs.Bits.{Tells, HoldsBelow};
ghost use Rattle.scope_facts.specs.Fields.{IsStatic, IsFaulty, IsSeen, Accesses, Makes, AccessesIn, MakesIn, InReached};
ghost use Rattle.scope_facts.specs.Texts.{AreKinds};

use crate::bits::{bit_if, bit_of, has_lock};
use crate::cases::Case;
use crate::kinds::{KindRow, kind_at};
use app_model::{App, ComponentRow, FieldRow, Kind};
use class_graph::ClassGraph;
use dalvik::{Ins, access};
use ns_base::{ClassNo, LockNo, MethodNo, TypeNo};

/// The lock fields that instructions access, and those of whose class, or of one below it, they make objects.
#[derive(Clone, Copy)]
pub struct Seen {
    pub accessed: u64,
    pub made: u64,
}

/// How many lock fields there are.
pub fn lock_count(app: &App) -> u32
    ensures count { result ≡ length app.now.locks }
    ensures limit { result ≤ 64 }
{
    app.told();
    app.locks().len() as u32
}

/// The field that is a lock field.
#[tactic(auto, unfolding(flow_model::specs::Breaks::field_of_lock))]
pub fn field_of_lock(app: &App, lock: LockNo) -> Option<FieldRow>
    ensures { result ≡ breaks.field_of_lock app.now lock.0 }
{
    let Some(field) = app.locks().get(lock.0 as usize) else {
        return None;
    };
    if field.0 < app.field_count() {
        Some(*app.field(*field))
    } else {
        None
    }
}

pub fn is_static(field: FieldRow) -> bool
    ensures { result ≡ breaks.is_static_field field }
{
    field.flags & access::STATIC != 0
}

fn is_static_lock(app: &App, lock: LockNo) -> bool
    ensures { (result ≡ true) ↔ IsStatic app.now lock.0 }
{
    match field_of_lock(app, lock) {
        Some(field) => is_static(field),
        None => false,
    }
}

/// The static lock fields.
pub fn static_locks(app: &App) -> u64
    ensures { Tells result (IsStatic app.now) }
{
    let mut statics = 0;
    for l in 0..lock_count(app) {
        statics |= bit_if(is_static_lock(app, LockNo(l)), LockNo(l));
    }
    statics
}

// ---- owners

fn is_lasting(kind: Kind) -> bool
    ensures { result ≡ breaks.is_lasting kind }
{
    match kind {
        Kind::Activity | Kind::Service | Kind::Receiver => true,
        Kind::Runnable => false,
    }
}

/// Whether a class is another one, or inherits it.
#[tactic(auto, unfolding(flow_model::specs::Breaks::inherits))]
pub fn inherits(app: &App, classes: &ClassGraph, class: ClassNo, above: ClassNo) -> bool
    requires { IsClassGraph app.now classes.now }
    ensures { result ≡ breaks.inherits app.now class above }
{
    let count = app.class_count();
    if class.0 >= count {
        return false;
    }
    if above.0 >= count {
        return false;
    }
    classes.is_sub(app.class(class).name, app.class(above).name)
}

/// Whether a component may own an instance field.
pub fn may_own(app: &App, classes: &ClassGraph, field: FieldRow, component: &ComponentRow) -> bool
    requires { IsClassGraph app.now classes.now }
    ensures { result ≡ breaks.may_own app.now field component.now }
{
    is_lasting(component.kind) && inherits(app, classes, component.class, field.class)
}

fn owner_count(case: &Case, classes: &ClassGraph, field: FieldRow) -> usize
    requires { IsClassGraph case.now.app classes.now }
    ensures { result ≡ breaks.owner_count case.now field }
{
    let _ = &case.app;
    let rows = case.list.rows.as_slice();
    let mut count = 0;
    for c in 0..rows.len() {
        let row = &rows[c];
        if may_own(&case.app, classes, field, row) {
            count += 1;
        }
    }
    count
}

// ---- what reached code accesses and makes

fn accessed_at(app: &App, method: MethodNo, index: u32) -> u64
    requires method { method.0 < length app.now.methods }
    requires index { index < code_len app.now method.0 }
    ensures { Tells result (Accesses app.now method.0 index) }
{
    match app.slot(method, index) {
        Some(lock) => bit_of(lock),
        None => 0,
    }
}

/// The type of which an instruction makes an object.
pub fn made_type(app: &App, method: MethodNo, index: u32) -> Option<TypeNo>
    requires method { method.0 < length app.now.methods }
    requires index { index < code_len app.now method.0 }
    ensures made { option_map (λ (t : TypeNo). t.0) result ≡ breaks.made_type (ins_at app.now method.0 index) }
    ensures within { IfSome result (λ t. t.0 < length app.now.types) }
{
    app.told();
    let (_, ins) = app.ins(method, index);
    match ins {
        Ins::NewInstance { kind, .. } => Some(TypeNo(kind)),
        _ => None,
    }
}

fn made_at(app: &App, kinds: &[KindRow], method: MethodNo, index: u32) -> u64
    requires method { method.0 < length app.now.methods }
    requires index { index < code_len app.now method.0 }
    requires kinds { AreKinds app.now kinds.now }
    ensures { Tells result (Makes app.now method.0 index) }
{
    match made_type(app, method, index) {
        Some(kind) => kind_at(app, kinds, kind).above,
        None => 0,
    }
}

fn seen_in(app: &App, kinds: &[KindRow], method: MethodNo) -> Seen
    requires method { method.0 < length app.now.methods }
    requires kinds { AreKinds app.now kinds.now }
    ensures { IsSeen (AccessesIn app.now method.0) (MakesIn app.now method.0) result }
{
    let mut accessed = 0;
    let mut made = 0;
    for index in 0..app.code_len(method) {
        accessed |= accessed_at(app, method, index);
        made |= made_at(app, kinds, method, index);
    }
    Seen { accessed, made }
}

fn seen_if(app: &App, kinds: &[KindRow], reached: bool, method: MethodNo) -> Seen
    requires method { method.0 < length app.now.methods }
    requires kinds { AreKinds app.now kinds.now }
    ensures { IsSeen (λ l. (reached ≡ true) × AccessesIn app.now method.0 l) (λ l. (reached ≡ true) × MakesIn app.now method.0 l) result }
{
    if reached {
        seen_in(app, kinds, method)
    } else {
        Seen {
            accessed: 0,
            made: 0,
        }
    }
}

/// What the methods that are reached access and make.
pub fn find_seen(app: &App, kinds: &[KindRow], reached: &[bool]) -> Seen
    requires kinds { AreKinds app.now kinds.now }
    requires reached { length reached.now ≡ length app.now.methods }
    ensures { IsSeen (HoldsBelow (length app.now.methods) (InReached reached.now (AccessesIn app.now))) (HoldsBelow (length app.now.methods) (InReached reached.now (MakesIn app.now))) result }
{
    let mut accessed = 0;
    let mut made = 0;
    for method in 0..app.method_count() {
        let more = seen_if(app, kinds, reached[method as usize], MethodNo(method));
        accessed |= more.accessed;
        made |= more.made;
    }
    Seen { accessed, made }
}

// ---- fields without their one owner

fn is_faulty(case: &Case, classes: &ClassGraph, made: u64, lock: LockNo) -> bool
    requires { IsClassGraph case.now.app classes.now }
    ensures { (result ≡ true) ↔ IsFaulty case.now made lock.0 }
{
    match field_of_lock(&case.app, lock) {
        Some(field) => {
            !is_static(field) && (owner_count(case, classes, field) != 1 || has_lock(made, lock))
        }
        None => false,
    }
}

/// The instance lock fields that have not one owner, or of whose class, or of one below it, objects are made.
pub fn faulty_locks(case: &Case, classes: &ClassGraph, made: u64) -> u64
    requires { IsClassGraph case.now.app classes.now }
    ensures { Tells result (IsFaulty case.now made) }
{
    let mut faulty = 0;
    for l in 0..lock_count(&case.app) {
        faulty |= bit_if(is_faulty(case, classes, made, LockNo(l)), LockNo(l));
    }
    faulty
}
