//! Which wake-lock field an instruction reads or writes.
ghost use Rattle.std.specs.Prelude.{◌≡◌, ◌<◌, length, Some, option_map, slice_get};
ghost use Rattle.app_model.specs.Words.{code_len};
ghost use Rattle.app_model.specs.Hierarchy.{is_named_field, lock_in, lock_of};
ghost use Rattle.app_model.specs.Slots.{class_text, is_object_access, lock_named, slot_at};
ghost use Rattle.ns_base.specs.declared.rows.LockNo.{LockNo};

use crate::app::App;
use crate::names::WAKE_LOCK;
use crate::rows::{NamedField, Operand};
use dalvik::{Ins, opcode};
use ns_base::{ClassNo, FieldNo, LockNo, MethodNo, NameNo, TypeNo};

/// Whether an instruction reads or writes a field that holds an object.
fn is_object_access(ins: Ins) -> bool
    ensures { result ≡ is_object_access (Some ins) }
{
    match ins {
        Ins::FieldGet { op, .. } => op == opcode::IGET_OBJECT,
        Ins::FieldPut { op, .. } => op == opcode::IPUT_OBJECT,
        Ins::StaticGet { op, .. } => op == opcode::SGET_OBJECT,
        Ins::StaticPut { op, .. } => op == opcode::SPUT_OBJECT,
        _ => false,
    }
}

impl App {
    /// The lock field that an instruction reads or writes: the one of the class that it names, or else
    /// the nearest one of that name above it.
    #[tactic(auto, unfolding(crate::specs::Slots::slot_at))]
    pub fn slot(&self, method: MethodNo, index: u32) -> Option<LockNo>
        requires method { method.0 < length self.now.methods }
        requires index { index < code_len self.now method.0 }
        ensures { option_map (λ (l : LockNo). l.0) result ≡ slot_at self.now method.0 index }
    {
        let (_, ins) = self.ins(method, index);
        if !is_object_access(ins) {
            return None;
        }
        match self.operand(method, index) {
            Operand::Access(field) => self.lock_named(field),
            Operand::Plain | Operand::Invoke(_) => None,
        }
    }

    /// The name of a class; empty where there is no such class.
    #[tactic(auto, unfolding(crate::specs::Slots::class_text))]
    pub fn class_text(&self, class: ClassNo) -> &[u8]
        ensures { result.now ≡ class_text self.now class.0 }
    {
        if class.0 < self.class_count() {
            self.type_text(self.class(class).name)
        } else {
            &[]
        }
    }

    // The lock field that is named.
    fn lock_named(&self, field: NamedField) -> Option<LockNo>
        ensures { option_map (λ (l : LockNo). l.0) result ≡ lock_named self.now (Some field) }
    {
        if self.type_text(field.kind) == WAKE_LOCK {
            self.nearest_lock(field.class, field.name)
        } else {
            None
        }
    }

    // The lock field of a name in the class of a type, or else in the nearest one above it.
    #[tactic(auto, unfolding(crate::specs::Hierarchy::lock_of, crate::specs::Hierarchy::line_of))]
    fn nearest_lock(&self, kind: TypeNo, name: NameNo) -> Option<LockNo>
        ensures { option_map (λ (l : LockNo). l.0) result ≡ lock_of self.now kind.0 name.0 }
    {
        let mut class = self.class_of_type(kind);
        for _step in 0..self.class_count() {
            let here = class?;
            if let Some(lock) = self.lock_in(here, name) {
                return Some(lock);
            }
            class = self.superclass(here);
        }
        None
    }

    // The first lock field of a class under a name.
    #[tactic(auto, unfolding(crate::specs::Hierarchy::lock_in))]
    fn lock_in(&self, class: ClassNo, name: NameNo) -> Option<LockNo>
        ensures { option_map (λ (l : LockNo). l.0) result ≡ lock_in self.now name.0 class.0 }
    {
        let _ = &self.rows;
        let locks = self.locks();
        for i in 0..locks.len() {
            if self.is_named_field(locks[i], class, name) {
                return Some(LockNo(i as u32));
            }
        }
        None
    }

    fn is_named_field(&self, field: FieldNo, class: ClassNo, name: NameNo) -> bool
        ensures { result ≡ is_named_field (slice_get self.now.fields field.0) name.0 class.0 }
    {
        if field.0 < self.field_count() {
            let row = self.field(field);
            row.class.0 == class.0 && row.name.0 == name.0
        } else {
            false
        }
    }
}
