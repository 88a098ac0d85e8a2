//! A linked application.
ghost use Rattle.std.specs.Prelude.{◌≡◌, ◌<◌, IfOk, IfSome, is_some, length, slice_get, Some};
ghost use Rattle.app_model.specs.LockUse.{invoke_of};
ghost use Rattle.app_model.specs.Sound.{IsSoundApp, IsProtoRow, IsClassRow, IsMethodRow, IsFieldRow, IsOperand};
ghost use Rattle.app_model.specs.declared.rows.Operand.TheVariants.{Invoke};
ghost use Rattle.app_model.specs.Words.{places_of, place_at, operand_at, code_len, ins_at, pc_at, successor_at, handler_at, leaves_at, named_at};

use crate::hierarchy::index_types;
use crate::rows::{AppRows, ClassRow, FieldRow, MethodRow, Named, Operand, ProtoRow};
use dalvik::{Body, Ins, Place};
use ns_base::{ClassNo, FieldNo, MethodNo, NameNo, ProtoNo, TypeNo};
use std::alloc::{AllocError, Global};
use std::marker::Model;

/// All that the layers above read of the files: rows by number, and each method's code.
/// `index` has the class of each type, where it is kept.
#[derive(Drop)]
pub struct App {
    pub(crate) rows: AppRows,
    pub(crate) index: Option<Vec<Option<ClassNo>>>,
}

impl Model for App {
    ghost use Rattle.app_model.specs.Parts.{AppParts};
    ghost use Rattle.app_model.specs.Index.{KeepsIndex};
    ghost use Rattle.app_model.specs.Sound.{IsSoundApp};

    ghost Value = { AppParts };

    ghost view = { λ a. a.rows };

    ghost invariant = { λ a. IsSoundApp a.rows × KeepsIndex a.rows.classes a.index };
}

impl App {
    /// Takes no memory. The class of a type is found by a walk over the classes.
    pub fn new(rows: AppRows) -> App
        requires { IsSoundApp rows }
        ensures { result ≡ rows }
    {
        App { rows, index: None }
    }

    /// The same with an index from types to classes.
    pub fn indexed(alloc: Global, rows: AppRows) -> Result<App, AllocError>
        requires { IsSoundApp rows }
        ensures { IfOk result (λ app. app ≡ rows) }
    {
        let index = index_types(alloc, rows.types.len(), &rows.classes)?;
        Ok(App {
            rows,
            index: Some(index),
        })
    }

    /// What holds of each application.
    pub fn told(&self)
        ensures { IsSoundApp self.now }
    {
        let _ = &self.rows;
    }

    pub fn type_count(&self) -> u32
        ensures { result ≡ length self.now.types }
    {
        self.rows.types.len() as u32
    }

    pub fn name_count(&self) -> u32
        ensures { result ≡ length self.now.names }
    {
        self.rows.names.len() as u32
    }

    pub fn proto_count(&self) -> u32
        ensures { result ≡ length self.now.protos }
    {
        self.rows.protos.len() as u32
    }

    pub fn class_count(&self) -> u32
        ensures { result ≡ length self.now.classes }
    {
        self.rows.classes.len() as u32
    }

    pub fn method_count(&self) -> u32
        ensures { result ≡ length self.now.methods }
    {
        self.rows.methods.len() as u32
    }

    pub fn field_count(&self) -> u32
        ensures { result ≡ length self.now.fields }
    {
        self.rows.fields.len() as u32
    }

    /// The descriptor of a type.
    pub fn type_name(&self, kind: TypeNo) -> &[u8]
        requires { kind.0 < length self.now.types }
        ensures { slice_get self.now.types kind.0 ≡ Some result.now }
    {
        &self.rows.types[kind.0 as usize]
    }

    pub fn name(&self, name: NameNo) -> &[u8]
        requires { name.0 < length self.now.names }
        ensures { slice_get self.now.names name.0 ≡ Some result.now }
    {
        &self.rows.names[name.0 as usize]
    }

    pub fn proto(&self, proto: ProtoNo) -> &ProtoRow
        requires { proto.0 < length self.now.protos }
        ensures is { slice_get self.now.protos proto.0 ≡ Some result.now }
        ensures sound { IsProtoRow self.now result.now }
    {
        &self.rows.protos[proto.0 as usize]
    }

    pub fn class(&self, class: ClassNo) -> &ClassRow
        requires { class.0 < length self.now.classes }
        ensures is { slice_get self.now.classes class.0 ≡ Some result.now }
        ensures sound { IsClassRow self.now result.now }
    {
        &self.rows.classes[class.0 as usize]
    }

    pub fn method(&self, method: MethodNo) -> &MethodRow
        requires { method.0 < length self.now.methods }
        ensures is { slice_get self.now.methods method.0 ≡ Some result.now }
        ensures sound { IsMethodRow self.now result.now }
    {
        &self.rows.methods[method.0 as usize]
    }

    pub fn field(&self, field: FieldNo) -> &FieldRow
        requires { field.0 < length self.now.fields }
        ensures is { slice_get self.now.fields field.0 ≡ Some result.now }
        ensures sound { IsFieldRow self.now result.now }
    {
        &self.rows.fields[field.0 as usize]
    }

    /// The wake-lock fields; `LockNo(i)` is place i.
    pub fn locks(&self) -> &[FieldNo]
        ensures { result.now ≡ self.now.locks }
    {
        self.rows.locks.as_slice()
    }
}

// Instructions. `method` is a row, and `index` below its number of instructions.
impl App {
    /// How many instructions a method has.
    pub fn code_len(&self, method: MethodNo) -> u32
        requires { method.0 < length self.now.methods }
        ensures { result ≡ code_len self.now method.0 }
    {
        self.body(method).len() as u32
    }

    /// The pc of an instruction, and the instruction. Its field `kind` is a type number of the
    /// application; `string`, `field` and `method` stay the indices of the method's file.
    pub fn ins(&self, method: MethodNo, index: u32) -> (u32, Ins)
        requires method { method.0 < length self.now.methods }
        requires index { index < code_len self.now method.0 }
        ensures pc { pc_at self.now method.0 index ≡ Some result.0 }
        ensures ins { ins_at self.now method.0 index ≡ Some result.1 }
    {
        let place = self.place(method, index);
        (place.pc, place.ins)
    }

    /// Successor number `number` of an instruction, or none where there are not so many.
    pub fn successor(&self, method: MethodNo, index: u32, number: u32) -> Option<u32>
        requires method { method.0 < length self.now.methods }
        requires index { index < code_len self.now method.0 }
        ensures { result ≡ successor_at self.now method.0 index number }
    {
        self.place(method, index).successors.get(number as usize)
    }

    /// Possible handler number `number` of an instruction, or none where there are not so many.
    pub fn handler(&self, method: MethodNo, index: u32, number: u32) -> Option<u32>
        requires method { method.0 < length self.now.methods }
        requires index { index < code_len self.now method.0 }
        ensures { result ≡ handler_at self.now method.0 index number }
    {
        self.place(method, index).handlers.get(number as usize)
    }

    /// Whether a throw can leave the method at an instruction.
    pub fn may_leave(&self, method: MethodNo, index: u32) -> bool
        requires method { method.0 < length self.now.methods }
        requires index { index < code_len self.now method.0 }
        ensures { result ≡ leaves_at self.now method.0 index }
    {
        self.place(method, index).leaves
    }

    /// The method that an invoke names; none at every other instruction.
    pub fn named(&self, method: MethodNo, index: u32) -> Option<Named>
        requires method { method.0 < length self.now.methods }
        requires index { index < code_len self.now method.0 }
        ensures is { result ≡ named_at self.now method.0 index }
        ensures sound { IfSome result (λ named. IsOperand self.now (Invoke named)) }
        ensures exact { is_some result ≡ is_some (invoke_of (ins_at self.now method.0 index)) }
    {
        match self.operand(method, index) {
            Operand::Invoke(named) => Some(named),
            Operand::Plain | Operand::Access(_) => None,
        }
    }

    #[tactic(auto, unfolding(crate::specs::Words::places_of))]
    fn body(&self, method: MethodNo) -> &Body
        requires { method.0 < length self.now.methods }
        ensures body { slice_get self.now.code method.0 ≡ Some result.now }
        ensures places { result.now.places ≡ places_of self.now method.0 }
    {
        &self.rows.code[method.0 as usize]
    }

    // Every accessor of an instruction reads it by this call.
    #[tactic(auto, unfolding(crate::specs::Words::place_at))]
    fn place(&self, method: MethodNo, index: u32) -> &Place
        requires method { method.0 < length self.now.methods }
        requires index { index < code_len self.now method.0 }
        ensures { place_at self.now method.0 index ≡ Some result.now }
    {
        self.body(method).place(index as usize)
    }

    #[tactic(auto, unfolding(crate::specs::Words::operand_at))]
    pub(crate) fn operand(&self, method: MethodNo, index: u32) -> Operand
        requires method { method.0 < length self.now.methods }
        requires index { index < code_len self.now method.0 }
        ensures is { operand_at self.now method.0 index ≡ Some result }
        ensures sound { IsOperand self.now result }
        ensures exact { is_some (named_at self.now method.0 index) ≡ is_some (invoke_of (ins_at self.now method.0 index)) }
    {
        self.rows.operands[method.0 as usize][index as usize]
    }
}
