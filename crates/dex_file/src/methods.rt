//! Reading the code of methods.
ghost use Rattle.std.specs.Prelude.{◌≡◌, ◌<◌, ◌≤◌, ℕ, length, slice_index_or, IfOk};
ghost use Rattle.dex_tables.specs.Content.{AreTablesOf};
ghost use Rattle.dex_tables.specs.Rows.{method_count};
ghost use Rattle.dex_code.specs.declared.members.Member.{Member};
ghost use Rattle.dex_code.specs.Content.{IsCodeOf};
ghost use Rattle.dex_code.specs.Reading.{code_at};
ghost use Rattle.method_graph.specs.Graph.{IsCodeIn, graph_of};
ghost use Rattle.method_graph.specs.Operands.{AreSums};
ghost use Rattle.dex_file.specs.Exact.{IsExact, Gives, in_dex, in_code};
ghost use Rattle.dex_file.specs.Reading.{with_row, with_method, methods_at};

use crate::fault::{FileFault, code_fault_of, dex_fault_of};
use crate::parts::{FileCode, FileMethod};
use crate::sums::Sums;
use dalvik::Body;
use dex_code::{CodeItem, Member, read_code};
use dex_tables::Tables;
use method_graph::{ParamSums, build_graph_with};
use std::alloc::{AllocError, Global};
use std::marker::Model;

/// The methods of a list so far, and the sums with them.
#[derive(Drop)]
pub struct Methods {
    pub sums: Sums,
    pub methods: Vec<FileMethod>,
}

impl Model for Methods {
    ghost use Rattle.dex_file.specs.Reading.{ReadMethods};

    ghost Value = { ReadMethods };

    ghost view = { λ m. record { sums = m.sums; methods = m.methods.items } };
}

fn read_item(alloc: Global, bytes: &[u8], tables: &Tables, off: u32) -> Result<CodeItem, FileFault>
    requires tables { AreTablesOf bytes.now tables.now }
    requires len { length bytes.now ≤ 4294967295 }
    ensures exact { IsExact result (in_dex (code_at bytes.now off)) }
    ensures content { IfOk result (λ item. IsCodeOf bytes.now off item) }
{
    match read_code(alloc, bytes, tables, off) {
        Ok(item) => Ok(item),
        Err(fault) => Err(dex_fault_of(fault)),
    }
}

fn read_body(
    alloc: Global,
    bytes: &[u8],
    tables: &Tables,
    params: &mut ParamSums,
    member: Member,
    item: &CodeItem,
) -> Result<Body, FileFault>
    requires tables { AreTablesOf bytes.now tables.now }
    requires len { length bytes.now ≤ 4294967295 }
    requires row { member.id < method_count bytes.now }
    requires item { IsCodeIn bytes.now item.now }
    requires params { AreSums bytes.now params.old }
    ensures exact { IsExact result (in_code member.id (graph_of bytes.now member.id member.flags item.now)) }
    ensures params { AreSums bytes.now params.new }
{
    match build_graph_with(alloc, bytes, tables, params, member.id, member.flags, item) {
        Ok(body) => Ok(body),
        Err(fault) => Err(code_fault_of(member.id, fault)),
    }
}

impl Methods {
    fn push(&mut self, member: Member, sums: Sums, code: Option<FileCode>) -> Result<(), AllocError>
        ensures { IfOk result (λ _. self.new ≡ with_row self.old member sums code) }
    {
        self.methods.push(FileMethod {
            id: member.id,
            flags: member.flags,
            code,
        })?;
        self.sums = sums;
        Ok(())
    }

    // One method more, whose code stands at its offset, if it has one.
    #[tactic(auto, unfolding(crate::specs::Reading::with_method))]
    fn add(
        &mut self,
        alloc: Global,
        bytes: &[u8],
        tables: &Tables,
        params: &mut ParamSums,
        member: Member,
    ) -> Result<(), FileFault>
        requires tables { AreTablesOf bytes.now tables.now }
        requires len { length bytes.now ≤ 4294967295 }
        requires row { member.id < method_count bytes.now }
        requires params { AreSums bytes.now params.old }
        ensures value { Gives (λ _. self.new) result (with_method bytes.now self.old member) }
        ensures params { AreSums bytes.now params.new }
    {
        if member.code == 0 {
            self.push(member, self.sums, None)?;
            return Ok(());
        }
        let item = read_item(alloc, bytes, tables, member.code)?;
        let sums = self.sums.add_code(&item)?;
        let body = read_body(alloc, bytes, tables, params, member, &item)?;
        let code = FileCode {
            ins: item.ins,
            body,
        };
        self.push(member, sums, Some(code))?;
        Ok(())
    }
}

/// The methods of a list, in order. `Limit` comes from the sums over the file, and before the code's
/// own faults. What was summed of the file's prototypes is kept from method to method.
pub fn read_methods(
    alloc: Global,
    bytes: &[u8],
    tables: &Tables,
    params: &mut ParamSums,
    sums: Sums,
    members: &[Member],
) -> Result<Methods, FileFault>
    requires tables { AreTablesOf bytes.now tables.now }
    requires len { length bytes.now ≤ 4294967295 }
    requires rows { (i : ℕ) (d : Member) → i < length members.now → (slice_index_or members.now i d).id < method_count bytes.now }
    requires params { AreSums bytes.now params.old }
    ensures exact { IsExact result (methods_at bytes.now sums members.now) }
    ensures params { AreSums bytes.now params.new }
{
    let mut read = Methods {
        sums,
        methods: Vec::with_capacity(alloc, members.len())?,
    };
    for k in 0..members.len() {
        let member = members[k];
        read.add(alloc, bytes, tables, params, member)?;
    }
    Ok(read)
}
