//! What the rows of a file are in the application.
ghost use Rattle.std.specs.Prelude.{◌≡◌, ◌≤◌, length, map, option_map, IfOk};
ghost use Rattle.app_rows.specs.Linked.{type_at, method_at, field_at, named, named_field, rows_of, class_row, field_row, method_row, registers_of, ins_of};

use crate::numbers::{FileNumbers, SeenLists, number_at, number_file};
use app_model::{ClassRow, FieldRow, MethodRow, Named, NamedField};
use dex_file::{FileClass, FileCode, FileField, FileMethod, FileParts};
use dex_tables::{FieldId, MethodId};
use ns_base::{ClassNo, NameNo, ProtoNo, TypeNo};
use std::alloc::{AllocError, Global};
use std::marker::Model;

/// The numbers of a file's types, and what its rows of methods and fields name.
#[derive(Drop)]
pub struct FileRows {
    pub types: Vec<u32>,
    pub methods: Vec<Named>,
    pub fields: Vec<NamedField>,
}

impl Model for FileRows {
    ghost use Rattle.app_rows.specs.Linked.{Rows};

    ghost Value = { Rows };

    ghost view = { λ r. record { types = r.types.items; methods = r.methods.items; fields = r.fields.items } };
}

fn named(numbers: &FileNumbers, id: MethodId) -> Named
    ensures { result ≡ named numbers.now id }
{
    Named {
        class: TypeNo(number_at(&numbers.types, u32::from(id.class))),
        name: NameNo(number_at(&numbers.names, id.name)),
        proto: ProtoNo(number_at(&numbers.protos, u32::from(id.proto))),
    }
}

fn named_field(numbers: &FileNumbers, id: FieldId) -> NamedField
    ensures { result ≡ named_field numbers.now id }
{
    NamedField {
        class: TypeNo(number_at(&numbers.types, u32::from(id.class))),
        name: NameNo(number_at(&numbers.names, id.name)),
        kind: TypeNo(number_at(&numbers.types, u32::from(id.kind))),
    }
}

fn name_methods(
    alloc: Global,
    numbers: &FileNumbers,
    ids: &[MethodId],
) -> Result<Vec<Named>, AllocError>
    ensures { IfOk result (λ methods. methods.items ≡ map (named numbers.now) ids.now) }
{
    let mut methods = Vec::with_capacity(alloc, ids.len())?;
    for id in ids {
        methods.push(named(numbers, *id))?;
    }
    Ok(methods)
}

fn name_fields(
    alloc: Global,
    numbers: &FileNumbers,
    ids: &[FieldId],
) -> Result<Vec<NamedField>, AllocError>
    ensures { IfOk result (λ fields. fields.items ≡ map (named_field numbers.now) ids.now) }
{
    let mut fields = Vec::with_capacity(alloc, ids.len())?;
    for id in ids {
        fields.push(named_field(numbers, *id))?;
    }
    Ok(fields)
}

/// The rows of a file.
#[tactic(auto, unfolding(crate::specs::Linked::rows_of))]
pub fn find_rows(alloc: Global, seen: &SeenLists, file: &FileParts) -> Result<FileRows, AllocError>
    requires types { length seen.now.types ≤ 134217728 }
    requires names { length seen.now.names ≤ 134217728 }
    requires protos { length seen.now.protos ≤ 134217728 }
    ensures { IfOk result (λ rows. rows ≡ rows_of seen.now file.now) }
{
    let numbers = number_file(alloc, seen, file)?;
    let methods = name_methods(alloc, &numbers, &file.methods)?;
    let fields = name_fields(alloc, &numbers, &file.fields)?;
    Ok(FileRows {
        types: numbers.types,
        methods,
        fields,
    })
}

impl FileRows {
    /// The type of a row.
    pub fn kind(&self, row: u32) -> TypeNo
        ensures { result ≡ type_at self.now row }
    {
        TypeNo(number_at(&self.types, row))
    }

    /// What a row of the methods names.
    pub fn method(&self, row: u32) -> Named
        ensures { result ≡ method_at self.now row }
    {
        match self.methods.get(row as usize) {
            Some(named) => *named,
            None => Named {
                class: TypeNo(0),
                name: NameNo(0),
                proto: ProtoNo(0),
            },
        }
    }

    /// What a row of the fields names.
    pub fn field(&self, row: u32) -> NamedField
        ensures { result ≡ field_at self.now row }
    {
        match self.fields.get(row as usize) {
            Some(named) => *named,
            None => NamedField {
                class: TypeNo(0),
                name: NameNo(0),
                kind: TypeNo(0),
            },
        }
    }

    fn parent(&self, row: Option<u32>) -> Option<TypeNo>
        ensures { result ≡ option_map (type_at self.now) row }
    {
        match row {
            Some(row) => Some(self.kind(row)),
            None => None,
        }
    }

    fn kinds(&self, alloc: Global, list: &[u16]) -> Result<Vec<TypeNo>, AllocError>
        ensures { IfOk result (λ kinds. kinds.items ≡ map (type_at self.now) list.now) }
    {
        let mut kinds = Vec::with_capacity(alloc, list.len())?;
        for row in list {
            kinds.push(self.kind(u32::from(*row)))?;
        }
        Ok(kinds)
    }

    /// The row of a class.
    pub fn class_row(&self, alloc: Global, class: &FileClass) -> Result<ClassRow, AllocError>
        ensures { IfOk result (λ row. row ≡ class_row self.now class.now) }
    {
        Ok(ClassRow {
            name: self.kind(class.kind),
            parent: self.parent(class.parent),
            interfaces: self.kinds(alloc, &class.interfaces)?,
            flags: class.flags,
        })
    }

    /// The row of a field of the class of this number.
    pub fn field_row(&self, class: u32, field: FileField) -> FieldRow
        ensures { result ≡ field_row self.now class field }
    {
        let named = self.field(field.id);
        FieldRow {
            class: ClassNo(class),
            name: named.name,
            kind: named.kind,
            flags: field.flags,
        }
    }

    /// The row of a method of the class of this number.
    pub fn method_row(&self, class: u32, method: &FileMethod) -> MethodRow
        ensures { result ≡ method_row self.now class method.now }
    {
        let named = self.method(method.id);
        MethodRow {
            class: ClassNo(class),
            name: named.name,
            proto: named.proto,
            flags: method.flags,
            registers: registers_of(&method.code),
            ins: ins_of(&method.code),
        }
    }
}

fn registers_of(code: &Option<FileCode>) -> u16
    ensures { result ≡ registers_of code.now }
{
    match code {
        Some(code) => code.body.registers(),
        None => 0,
    }
}

fn ins_of(code: &Option<FileCode>) -> u16
    ensures { result ≡ ins_of code.now }
{
    match code {
        Some(code) => code.ins,
        None => 0,
    }
}
