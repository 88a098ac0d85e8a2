//! The rows of an application: its classes, methods, fields and prototypes, and what instructions name.
use dalvik::Body;
use ns_base::{ClassNo, FieldNo, NameNo, ProtoNo, TypeNo};
use std::marker::Model;

/// A class of the files.
#[derive(Drop)]
pub struct ClassRow {
    pub name: TypeNo,
    pub parent: Option<TypeNo>,
    pub interfaces: Vec<TypeNo>,
    pub flags: u32,
}

impl Model for ClassRow {
    ghost use Rattle.app_model.specs.Parts.{ClassParts};

    ghost Value = { ClassParts };

    ghost view = { λ c. record { name = c.name; parent = c.parent; interfaces = c.interfaces.items; flags = c.flags } };
}

/// A method of a class, with the registers of its code and those of them that hold the arguments.
#[derive(Clone, Copy, Debug, PartialEq, Eq)]
pub struct MethodRow {
    pub class: ClassNo,
    pub name: NameNo,
    pub proto: ProtoNo,
    pub flags: u32,
    pub registers: u16,
    pub ins: u16,
}

/// A field of a class.
#[derive(Clone, Copy, Debug, PartialEq, Eq)]
pub struct FieldRow {
    pub class: ClassNo,
    pub name: NameNo,
    pub kind: TypeNo,
    pub flags: u32,
}

/// A result type and parameter types.
#[derive(Drop)]
pub struct ProtoRow {
    pub result: TypeNo,
    pub params: Vec<TypeNo>,
}

impl Model for ProtoRow {
    ghost use Rattle.app_model.specs.Parts.{ProtoParts};

    ghost Value = { ProtoParts };

    ghost view = { λ p. record { result = p.result; params = p.params.items } };
}

/// The method that an invoke names.
#[derive(Clone, Copy, Debug, PartialEq, Eq)]
pub struct Named {
    pub class: TypeNo,
    pub name: NameNo,
    pub proto: ProtoNo,
}

/// The field that an access names.
#[derive(Clone, Copy, Debug, PartialEq, Eq)]
pub struct NamedField {
    pub class: TypeNo,
    pub name: NameNo,
    pub kind: TypeNo,
}

/// What an instruction names, by numbers of the application.
#[derive(Clone, Copy, Debug, PartialEq, Eq)]
pub enum Operand {
    /// Neither a method nor a field.
    Plain,
    Invoke(Named),
    Access(NamedField),
}

/// All rows of an application. `code` and `operands` have an entry for each method, and each entry of
/// `operands` one for each instruction.
#[derive(Drop)]
pub struct AppRows {
    pub types: Vec<Vec<u8>>,
    pub names: Vec<Vec<u8>>,
    pub protos: Vec<ProtoRow>,
    pub classes: Vec<ClassRow>,
    pub methods: Vec<MethodRow>,
    pub fields: Vec<FieldRow>,
    pub locks: Vec<FieldNo>,
    pub code: Vec<Body>,
    pub operands: Vec<Vec<Operand>>,
}

impl Model for AppRows {
    ghost use Rattle.app_model.specs.Parts.{AppParts};
    ghost use Rattle.std.specs.Prelude.{map};

    ghost Value = { AppParts };

    ghost view = { λ r. record {
      types = map (λ v. v.items) r.types.items;
      names = map (λ v. v.items) r.names.items;
      protos = r.protos.items;
      classes = r.classes.items;
      methods = r.methods.items;
      fields = r.fields.items;
      locks = r.locks.items;
      code = r.code.items;
      operands = map (λ v. v.items) r.operands.items;
    } };
}
