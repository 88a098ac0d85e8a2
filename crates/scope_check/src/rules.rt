//! The rules at one instruction, and at a method as a whole.
ghost use Rattle.std.specs.Prelude.{◌≡◌, ◌<◌, ◌&&◌, ◌||◌, ◌==◌, length, Some, slice_get, slice_index, not, bytes_eq};
ghost use Rattle.std.specs.Int.{bit_at};
ghost use Rattle.std.specs.List.{list_any};
ghost use Rattle.app_model.specs.declared.rows.Operand.TheVariants.{Invoke};
ghost use Rattle.app_model.specs.Components.{ComponentParts};
ghost use Rattle.app_model.specs.LockUse.{invoke_of};
ghost use Rattle.app_model.specs.Slots.{slot_at};
ghost use Rattle.app_model.specs.Sound.{IsOperand};
ghost use Rattle.app_model.specs.TagTable.{row_at};
ghost use Rattle.app_model.specs.Words.{code_len, ins_at, named_at};
ghost use Rattle.act_model.specs.Acts.{act_at};
ghost use Rattle.class_graph.specs.Belongs.{IsClassGraph};
ghost use Rattle.flow_model.specs.Breaks as breaks;
ghost use Rattle.flow_model.specs.Breaks.{passes_named};
ghost use Rattle.flow_model.specs.Passes as passes;
ghost use Rattle.app_model.specs.Names.{name_text};
ghost use Rattle.scope_check.specs.Tests as spec;
ghost use Rattle.scope_facts.specs.Texts.{IsKind, IsName};
ghost use Rattle.scope_check.specs.Tests.{IsCalled};

use crate::survey::Survey;
use act_model::Act;
use app_model::{App, By, Named, call_by};
use class_graph::ClassGraph;
use dalvik::{Ins, access};
use flow_model::{TagsAt, is_escape, is_wrong_call};
use ns_base::{ClassNo, MethodNo, NameNo, TypeNo};
use scope_facts::{
    KindRow, NameRow, has_lock, has_locks, has_others, inherits, is_lock_ins, kind_at, made_type,
    name_of,
};

/// Whether an invoke loads code, reflects, or calls a thread, by the method that it names.
#[derive(Clone, Copy)]
pub(crate) struct Called {
    pub loads: bool,
    pub reflects: bool,
    pub thread: bool,
}

#[tactic(auto, unfolding(flow_model::specs::Breaks::is_native))]
fn is_native(app: &App, method: MethodNo) -> bool
    ensures { result ≡ breaks.is_native app.now method.0 }
{
    method.0 < app.method_count() && app.method(method).flags & access::NATIVE != 0
}

fn is_instance(by: By) -> bool
    ensures { result ≡ passes.is_instance by }
{
    !matches!(by, By::Static)
}

fn invoke_of(ins: Ins) -> Option<u8>
    ensures { result ≡ invoke_of (Some ins) }
{
    match ins {
        Ins::Invoke { op, .. } => Some(op),
        _ => None,
    }
}

// Whether an invoke of this opcode calls a thread, or Executors, where it names a method of this type.
fn is_thread_call(op: Option<u8>, kind: KindRow) -> bool
    ensures { result ≡ spec.is_thread_call op kind }
{
    match op {
        Some(op) => (is_instance(call_by(op)) & kind.thread) | kind.executors,
        None => false,
    }
}

fn is_static_access(ins: Ins) -> bool
    ensures { result ≡ breaks.is_static_access (Some ins) }
{
    matches!(ins, Ins::StaticGet { .. } | Ins::StaticPut { .. })
}

impl Survey {
    fn kind(&self, kind: TypeNo) -> KindRow
        requires { kind.0 < length self.now.case.app.types }
        ensures { IsKind self.now.case.app kind.0 result }
    {
        self.told();
        kind_at(&self.case.app, &self.tables.kinds, kind)
    }

    fn name(&self, name: NameNo) -> NameRow
        requires { name.0 < length self.now.case.app.names }
        ensures { IsName (name_text self.now.case.app name.0) result }
    {
        self.told();
        self.tables.names[name.0 as usize]
    }

    // What the method is that an invoke of this opcode names.
    fn called_by(&self, op: Option<u8>, named: Named) -> Called
        requires { IsOperand self.now.case.app (Invoke named) }
        ensures { IsCalled self.now.case.app op (Some named) result }
    {
        let kind = self.kind(named.class);
        let name = self.name(named.name);
        Called {
            loads: kind.system & name.loads,
            reflects: (kind.class & name.makes) | kind.reflective,
            thread: is_thread_call(op, kind),
        }
    }

    fn called(&self, method: MethodNo, index: u32) -> Called
        requires method { method.0 < length self.now.case.app.methods }
        requires index { index < code_len self.now.case.app method.0 }
        ensures { IsCalled self.now.case.app (invoke_of (ins_at self.now.case.app method.0 index)) (named_at self.now.case.app method.0 index) result }
    {
        let _ = &self.case;
        let (_, ins) = self.case.app.ins(method, index);
        match self.case.app.named(method, index) {
            Some(named) => self.called_by(invoke_of(ins), named),
            None => Called {
                loads: false,
                reflects: false,
                thread: false,
            },
        }
    }

    fn calls_native(&self, method: MethodNo, index: u32) -> bool
        ensures { result ≡ spec.calls_native self.now.case method.0 index }
    {
        let _ = &self.case;
        let callees = self.case.graph.callees(method, index);
        for k in 0..callees.len() {
            if is_native(&self.case.app, callees[k]) {
                return true;
            }
        }
        false
    }

    fn makes_thread(&self, method: MethodNo, index: u32) -> bool
        requires method { method.0 < length self.now.case.app.methods }
        requires index { index < code_len self.now.case.app method.0 }
        ensures { result ≡ spec.makes_thread self.now.case.app (breaks.made_type (ins_at self.now.case.app method.0 index)) }
    {
        let _ = &self.case;
        match made_type(&self.case.app, method, index) {
            Some(kind) => self.kind(kind).thread,
            None => false,
        }
    }

    /// Whether an instruction is a call of a lock's method, or an access to a lock field.
    pub(crate) fn is_lock_ins(&self, method: MethodNo, index: u32) -> bool
        requires method { method.0 < length self.now.case.app.methods }
        requires index { index < code_len self.now.case.app method.0 }
        ensures { result ≡ breaks.is_lock_ins self.now.case.app method.0 index }
    {
        let _ = &self.case;
        is_lock_ins(&self.case.app, method, index)
    }

    // Whether an access does not fit its lock field, or the field has not its one owner.
    fn is_unfit(&self, method: MethodNo, index: u32) -> bool
        requires method { method.0 < length self.now.case.app.methods }
        requires index { index < code_len self.now.case.app method.0 }
        ensures { result ≡ spec.is_unfit self.now.faulty self.now.statics (ins_at self.now.case.app method.0 index) (slot_at self.now.case.app method.0 index) }
    {
        let _ = &self.case;
        let (_, ins) = self.case.app.ins(method, index);
        match self.case.app.slot(method, index) {
            Some(lock) => {
                has_lock(self.locks.faulty, lock)
                    || is_static_access(ins) != has_lock(self.locks.statics, lock)
            }
            None => false,
        }
    }

    /// The tests of the rules at an instruction that is reached, but for that of second stores.
    pub(crate) fn tests(&self, method: MethodNo, index: u32, act: &Act, row: &TagsAt) -> [bool; 8]
        requires method { method.0 < length self.now.case.app.methods }
        requires index { index < code_len self.now.case.app method.0 }
        requires act { act_at self.now.case.app method.0 index ≡ Some act.now }
        requires row { row_at row.now.table.now row.now.method.0 row.now.index ≡ row_at self.now.case.tags method.0 index }
        ensures { result ≡ spec.reached_tests self.now method.0 index }
    {
        let called = self.called(method, index);
        [
            false,
            self.calls_native(method, index) || called.loads,
            called.reflects,
            self.makes_thread(method, index) || called.thread,
            is_escape(act, row),
            is_wrong_call(act, row),
            false,
            self.is_unfit(method, index),
        ]
    }
}

// A method as a whole.
impl Survey {
    fn is_entry(&self, method: MethodNo) -> bool
        ensures { result ≡ spec.is_entry self.now.entries method.0 }
    {
        let _ = &self.case;
        self.callbacks
            .entries
            .iter()
            .any(|entry| entry.0 == method.0)
    }

    // Whether a component's class is a class, or inherits it.
    fn hosts(&self, classes: &ClassGraph, class: ClassNo) -> bool
        requires { IsClassGraph self.now.case.app classes.now }
        ensures { result ≡ list_any (λ (component : ComponentParts). breaks.inherits self.now.case.app component.class class) self.now.case.list }
    {
        let _ = &self.case;
        let rows = self.case.list.rows.as_slice();
        for c in 0..rows.len() {
            let row = &rows[c];
            if inherits(&self.case.app, classes, row.class, class) {
                return true;
            }
        }
        false
    }

    fn is_hosted(&self, classes: &ClassGraph, method: MethodNo) -> bool
        requires method { method.0 < length self.now.case.app.methods }
        requires classes { IsClassGraph self.now.case.app classes.now }
        ensures { result ≡ spec.is_hosted self.now.case.app self.now.case.list (slice_get self.now.case.app.methods method.0) }
    {
        self.hosts(classes, self.case.app.method(method).class)
    }

    fn is_unlisted(&self, method: MethodNo) -> bool
        requires { method.0 < length self.now.case.app.methods }
        ensures { result ≡ spec.is_unlisted self.now method.0 }
    {
        self.told();
        let name = name_of(&self.case.app, &self.tables.names, method);
        !self.reaches(method) && name.callback && has_locks(self.tables.below[method.0 as usize])
    }

    fn is_initialiser(&self, classes: &ClassGraph, method: MethodNo) -> bool
        requires method { method.0 < length self.now.case.app.methods }
        requires classes { IsClassGraph self.now.case.app classes.now }
        ensures { result ≡ spec.is_initialiser self.now method.0 }
    {
        self.told();
        let name = name_of(&self.case.app, &self.tables.names, method);
        name.class_init || (name.init && !self.reaches(method) && self.is_hosted(classes, method))
    }

    fn touches_as_initialiser(&self, classes: &ClassGraph, method: MethodNo) -> bool
        requires method { method.0 < length self.now.case.app.methods }
        requires classes { IsClassGraph self.now.case.app classes.now }
        ensures { result ≡ ((bit_at (slice_index self.now.below method.0) 1 == 1) && spec.is_initialiser self.now method.0) }
    {
        self.told();
        has_others(self.tables.below[method.0 as usize]) && self.is_initialiser(classes, method)
    }

    /// The tests of the rules at a method as a whole.
    pub(crate) fn head_tests(&self, classes: &ClassGraph, method: MethodNo) -> [bool; 11]
        requires method { method.0 < length self.now.case.app.methods }
        requires classes { IsClassGraph self.now.case.app classes.now }
        ensures { result ≡ spec.head_tests self.now method.0 }
    {
        let native = is_native(&self.case.app, method) && self.is_entry(method);
        let unlisted = self.is_unlisted(method);
        let touches = self.touches_as_initialiser(classes, method);
        [
            false, native, false, false, false, false, false, false, false, unlisted, touches,
        ]
    }

    /// Whether a method that is not reached touches a lock, and may not.
    #[tactic(auto, using(crate::proofs::Touching::other_touches))]
    pub(crate) fn touches_unreached(&self, method: MethodNo) -> bool
        requires { method.0 < length self.now.case.app.methods }
        ensures { result ≡ spec.may_not_touch self.now.case.app method.0 }
    {
        self.told();
        let name = name_of(&self.case.app, &self.tables.names, method);
        !name.class_init && has_others(self.tables.own[method.0 as usize])
    }
}
