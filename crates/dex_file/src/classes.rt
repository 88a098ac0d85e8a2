//! Reading the class rows.
ghost use Rattle.std.specs.Prelude.{◌≡◌, ◌+◌, ◌<◌, ◌≤◌, ◌++◌, ◌∷◌, [], ℕ, length, map, IfOk, OnOk};
ghost use Rattle.dex_tables.specs.Content.{AreTablesOf};
ghost use Rattle.dex_tables.specs.Rows.{class_count};
ghost use Rattle.dex_code.specs.Alike.{AreKeptNumbers};
ghost use Rattle.dex_code.specs.Content.{AreMembersOf};
ghost use Rattle.dex_code.specs.Reading.{members_at};
ghost use Rattle.method_graph.specs.Operands.{AreSums};
ghost use Rattle.dex_file.specs.Exact.{IsExact, Gives, in_dex};
ghost use Rattle.dex_file.specs.Content.{class_of, field_of, list_in};
ghost use Rattle.dex_file.specs.Reading.{classes_at, with_class};

use crate::fault::{FileFault, dex_fault_of};
use crate::methods::read_methods;
use crate::parts::{FileClass, FileField, FileMethod};
use crate::sums::Sums;
use dex_bytes::header_from;
use dex_code::{ClassMembers, Member, TextNumbers, read_class_members_with};
use dex_tables::{ClassDef, Slice, Tables};
use method_graph::ParamSums;
use std::alloc::{AllocError, Global};
use std::marker::Model;

/// The classes so far, and the sums with them.
#[derive(Drop)]
pub struct Classes {
    pub sums: Sums,
    pub classes: Vec<FileClass>,
}

impl Model for Classes {
    ghost use Rattle.dex_file.specs.Reading.{ReadClasses};

    ghost Value = { ReadClasses };

    ghost view = { λ c. record { sums = c.sums; classes = c.classes.items } };
}

/// A part of the entries of all type lists, as a list of its own.
pub fn copy_list(alloc: Global, lists: &[u16], part: Slice) -> Result<Vec<u16>, AllocError>
    requires { part.at + part.len ≤ length lists.now }
    ensures { IfOk result (λ list. list.items ≡ list_in lists.now part) }
{
    let (_, rest) = lists.split_at(part.at as usize);
    let (list, _) = rest.split_at(part.len as usize);
    list.to_vec(alloc)
}

fn fields_of(alloc: Global, members: &[Member]) -> Result<Vec<FileField>, AllocError>
    ensures { IfOk result (λ fields. fields.items ≡ map field_of members.now) }
{
    let mut fields = Vec::with_capacity(alloc, members.len())?;
    for member in members {
        fields.push(FileField {
            id: member.id,
            flags: member.flags,
        })?;
    }
    Ok(fields)
}

fn read_members(
    alloc: Global,
    bytes: &[u8],
    tables: &Tables,
    numbers: &mut TextNumbers,
    class: u32,
) -> Result<ClassMembers, FileFault>
    requires tables { AreTablesOf bytes.now tables.now }
    requires len { length bytes.now ≤ 4294967295 }
    requires row { class < class_count bytes.now }
    requires numbers { AreKeptNumbers bytes.now numbers.old }
    ensures exact { IsExact result (in_dex (members_at bytes.now class)) }
    ensures content { IfOk result (λ members. AreMembersOf bytes.now class members) }
    ensures numbers { AreKeptNumbers bytes.now numbers.new }
{
    match read_class_members_with(alloc, bytes, tables, numbers, class) {
        Ok(members) => Ok(members),
        Err(fault) => Err(dex_fault_of(fault)),
    }
}

fn make_class(
    alloc: Global,
    lists: &[u16],
    row: ClassDef,
    members: &ClassMembers,
    directs: Vec<FileMethod>,
    virtuals: Vec<FileMethod>,
) -> Result<FileClass, AllocError>
    requires { row.interfaces.at + row.interfaces.len ≤ length lists.now }
    ensures { IfOk result (λ class. class ≡ class_of lists.now row members.now directs.items virtuals.items) }
{
    Ok(FileClass {
        kind: row.class,
        flags: row.flags,
        parent: row.parent,
        interfaces: copy_list(alloc, lists, row.interfaces)?,
        statics: fields_of(alloc, &members.statics)?,
        instances: fields_of(alloc, &members.instances)?,
        directs,
        virtuals,
    })
}

impl Classes {
    fn push(&mut self, class: FileClass, sums: Sums) -> Result<(), AllocError>
        ensures { IfOk result (λ _. self.new ≡ record { sums = sums; classes = self.old.classes ++ class ∷ [] }) }
    {
        self.classes.push(class)?;
        self.sums = sums;
        Ok(())
    }

    // One class row more.
    #[tactic(auto, unfolding(crate::specs::Reading::with_class))]
    fn add(
        &mut self,
        alloc: Global,
        bytes: &[u8],
        tables: &Tables,
        numbers: &mut TextNumbers,
        params: &mut ParamSums,
        class: u32,
        row: ClassDef,
    ) -> Result<(), FileFault>
        requires tables { AreTablesOf bytes.now tables.now }
        requires len { length bytes.now ≤ 4294967295 }
        requires class { class < class_count bytes.now }
        requires number { class ≡ length self.old.classes }
        requires interfaces { row.interfaces.at + row.interfaces.len ≤ length tables.now.lists }
        requires numbers { AreKeptNumbers bytes.now numbers.old }
        requires params { AreSums bytes.now params.old }
        ensures value { Gives (λ _. self.new) result (with_class bytes.now tables.now.lists self.old row) }
        ensures count { OnOk result (length self.new.classes ≡ length self.old.classes + 1) }
        ensures numbers { AreKeptNumbers bytes.now numbers.new }
        ensures params { AreSums bytes.now params.new }
    {
        let members = read_members(alloc, bytes, tables, numbers, class)?;
        let sums = self.sums.add_members(&members)?;
        let directs = read_methods(alloc, bytes, tables, params, sums, &members.directs)?;
        let virtuals = read_methods(
            alloc,
            bytes,
            tables,
            params,
            directs.sums,
            &members.virtuals,
        )?;
        let lists = &tables.lists;
        let class = make_class(
            alloc,
            lists,
            row,
            &members,
            directs.methods,
            virtuals.methods,
        )?;
        self.push(class, virtuals.sums)?;
        Ok(())
    }
}

/// All class rows, each with its members and the code of its methods. The numbers of the file's strings,
/// where they are wanted, are kept from class to class.
pub fn read_classes(alloc: Global, bytes: &[u8], tables: &Tables) -> Result<Classes, FileFault>
    requires tables { AreTablesOf bytes.now tables.now }
    requires len { length bytes.now ≤ 4294967295 }
    ensures { IsExact result (classes_at bytes.now tables.now) }
{
    let count = header_from(bytes).classes.size;
    let mut read = Classes {
        sums: Sums::new(),
        classes: Vec::with_capacity(alloc, count as usize)?,
    };
    let mut numbers = TextNumbers::new(alloc);
    let mut params = ParamSums::new(alloc);
    for c in 0..count {
        let row = tables.classes[c as usize];
        read.add(alloc, bytes, tables, &mut numbers, &mut params, c, row)?;
    }
    Ok(read)
}
