//! The classes of an application, with their members.
ghost use Rattle.std.specs.Prelude.{◌≡◌, ◌≤◌, ◌<◌, ◌+◌, ◌^◌, length, fold, IfOk};
ghost use Rattle.app_rows.specs.Linked.{with_field, with_fields, with_name, with_method, with_methods, with_class, with_file, no_members, members_in, rows_of};
ghost use Rattle.app_rows.specs.Small.{AreSmall};

use crate::bodies::{find_operands, link_body};
use crate::numbers::SeenLists;
use crate::rows::{FileRows, find_rows};
use app_model::{ClassRow, FieldRow, MethodRow, Operand};
use dalvik::Body;
use dex_file::{FileClass, FileField, FileMethod, FileParts};
use std::alloc::{AllocError, Global};
use std::marker::Model;

/// The classes so far, and their methods and fields. Each method has an entry of `code` and `operands`.
#[derive(Drop)]
pub struct ClassMembers {
    pub classes: Vec<ClassRow>,
    pub methods: Vec<MethodRow>,
    pub fields: Vec<FieldRow>,
    pub code: Vec<Body>,
    pub operands: Vec<Vec<Operand>>,
}

impl Model for ClassMembers {
    ghost use Rattle.std.specs.Prelude.{map};
    ghost use Rattle.app_rows.specs.Linked.{Members};

    ghost Value = { Members };

    ghost view = { λ m. record {
      classes = m.classes.items;
      methods = m.methods.items;
      fields = m.fields.items;
      code = m.code.items;
      operands = map (λ v. v.items) m.operands.items;
    } };
}

impl ClassMembers {
    /// No classes.
    pub fn new(alloc: Global) -> ClassMembers
        ensures { result ≡ no_members }
    {
        ClassMembers {
            classes: Vec::new(alloc),
            methods: Vec::new(alloc),
            fields: Vec::new(alloc),
            code: Vec::new(alloc),
            operands: Vec::new(alloc),
        }
    }

    // How many classes there are.
    fn count(&self) -> u32
        requires { length self.now.classes < 2 ^ 32 }
        ensures { result ≡ length self.now.classes }
    {
        self.classes.len() as u32
    }

    fn push_field(
        &mut self,
        rows: &FileRows,
        class: u32,
        field: FileField,
    ) -> Result<(), AllocError>
        ensures { IfOk result (λ _. self.new ≡ with_field rows.now class self.old field) }
    {
        self.fields.push(rows.field_row(class, field))?;
        Ok(())
    }

    fn push_fields(
        &mut self,
        rows: &FileRows,
        class: u32,
        fields: &[FileField],
    ) -> Result<(), AllocError>
        ensures fields { IfOk result (λ _. self.new ≡ with_fields rows.now class self.old fields.now) }
        ensures classes { IfOk result (λ _. self.new.classes ≡ self.old.classes) }
    {
        for k in 0..fields.len() {
            self.push_field(rows, class, fields[k])?;
        }
        Ok(())
    }

    fn push_name(
        &mut self,
        alloc: Global,
        rows: &FileRows,
        class: &FileClass,
    ) -> Result<(), AllocError>
        ensures name { IfOk result (λ _. self.new ≡ with_name rows.now class.now self.old) }
        ensures count { IfOk result (λ _. length self.new.classes ≡ length self.old.classes + 1) }
    {
        self.classes.push(rows.class_row(alloc, class)?)?;
        Ok(())
    }

    fn push_method(
        &mut self,
        alloc: Global,
        rows: &FileRows,
        class: u32,
        method: FileMethod,
    ) -> Result<(), AllocError>
        ensures { IfOk result (λ _. self.new ≡ with_method rows.now class self.old method) }
    {
        self.methods.push(rows.method_row(class, &method))?;
        self.operands
            .push(find_operands(alloc, rows, &method.code)?)?;
        self.code.push(link_body(alloc, rows, method.code))?;
        Ok(())
    }

    fn push_methods(
        &mut self,
        alloc: Global,
        rows: &FileRows,
        class: u32,
        methods: Vec<FileMethod>,
    ) -> Result<(), AllocError>
        ensures methods { IfOk result (λ _. self.new ≡ with_methods rows.now class self.old methods.items) }
        ensures classes { IfOk result (λ _. self.new.classes ≡ self.old.classes) }
    {
        for method in methods {
            self.push_method(alloc, rows, class, method)?;
        }
        Ok(())
    }

    // A class, and its fields and methods.
    #[tactic(auto, unfolding(crate::specs::Linked::with_class))]
    fn push_class(
        &mut self,
        alloc: Global,
        rows: &FileRows,
        class: FileClass,
    ) -> Result<(), AllocError>
        requires { length self.old.classes < 2 ^ 32 }
        ensures members { IfOk result (λ _. self.new ≡ with_class rows.now self.old class) }
        ensures count { IfOk result (λ _. length self.new.classes ≡ length self.old.classes + 1) }
    {
        let number = self.count();
        self.push_name(alloc, rows, &class)?;
        self.push_fields(rows, number, &class.statics)?;
        self.push_fields(rows, number, &class.instances)?;
        self.push_methods(alloc, rows, number, class.directs)?;
        self.push_methods(alloc, rows, number, class.virtuals)?;
        Ok(())
    }

    fn push_classes(
        &mut self,
        alloc: Global,
        rows: &FileRows,
        classes: Vec<FileClass>,
    ) -> Result<(), AllocError>
        requires { length self.old.classes + length classes.items ≤ 2 ^ 32 }
        ensures members { IfOk result (λ _. self.new ≡ fold (with_class rows.now) self.old classes.items) }
        ensures count { IfOk result (λ _. length self.new.classes ≡ length self.old.classes + length classes.items) }
    {
        for class in classes {
            self.push_class(alloc, rows, class)?;
        }
        Ok(())
    }

    // All classes of a file.
    #[tactic(auto, unfolding(crate::specs::Linked::with_file))]
    fn push_file(
        &mut self,
        alloc: Global,
        seen: &SeenLists,
        file: FileParts,
    ) -> Result<(), AllocError>
        requires types { length seen.now.types ≤ 134217728 }
        requires names { length seen.now.names ≤ 134217728 }
        requires protos { length seen.now.protos ≤ 134217728 }
        requires room { length self.old.classes + length file.classes ≤ 2 ^ 32 }
        ensures members { IfOk result (λ _. self.new ≡ with_file seen.now self.old file) }
        ensures count { IfOk result (λ _. length self.new.classes ≡ length self.old.classes + length file.classes) }
    {
        let rows = find_rows(alloc, seen, &file)?;
        self.push_classes(alloc, &rows, file.classes)
    }
}

/// All classes of the files, with their members. Bodies are moved.
#[tactic(auto, unfolding(crate::specs::Linked::members_in))]
pub fn collect_members(
    alloc: Global,
    seen: &SeenLists,
    files: Vec<FileParts>,
) -> Result<ClassMembers, AllocError>
    requires small { AreSmall files.items }
    requires types { length seen.now.types ≤ 134217728 }
    requires names { length seen.now.names ≤ 134217728 }
    requires protos { length seen.now.protos ≤ 134217728 }
    ensures { IfOk result (λ members. members ≡ members_in seen.now files.items) }
{
    let mut members = ClassMembers::new(alloc);
    for file in files {
        members.push_file(alloc, seen, file)?;
    }
    Ok(members)
}
