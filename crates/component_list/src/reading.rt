//! Reading a component list.
ghost use Rattle.std.specs.Prelude.{◌≡◌, ◌<◌, ◌≤◌, [], length, IfOk};
ghost use Rattle.ns_base.specs.Steps.{Gives, IsExact, reached};
ghost use Rattle.toml.specs.View.{array_view, table_view};
ghost use Rattle.component_list.specs.Listed.{IsReadList};
ghost use Rattle.component_list.specs.Reading.{add_row, document_of, is_memory, item_count, listed_of, rows_in, rows_of};

use crate::fault::ListFault;
use crate::keys::{Level, wrong_member};
use crate::listed::Listed;
use crate::rows::{Rows, read_row, refuse_key};
use crate::values::{array_at, item_count, table_in, text_at};
use ns_base::{Counted, limit};
use std::alloc::Global;
use toml::Table;
use toml::value::Array;

fn read_document(alloc: Global, bytes: &[u8]) -> Result<Table, ListFault>
    ensures { Gives is_memory (λ table. table_view table) result (document_of bytes.now) }
{
    match toml::table_from_slice(alloc, bytes) {
        Ok(table) => Ok(table),
        Err(error) if error.is_memory() => Err(ListFault::Memory),
        Err(_) => Err(ListFault::Text),
    }
}

// An entry that is no table, which the keys of the document rule out, has no key.
fn add_row<'a>(
    alloc: Global,
    rows: &mut Rows<'a>,
    components: &'a Array,
    place: usize,
) -> Result<(), ListFault>
    requires { place < 256 }
    ensures { Gives is_memory (λ done. rows.new) result (add_row (array_view components.now) place rows.old) }
{
    let component = place as u32;
    let Some(table) = table_in(components, place) else {
        return refuse_key(alloc, component + 1, Some("class"));
    };
    let row = read_row(alloc, component, table)?;
    rows.add(component, text_at(table, "class"), row)
}

#[tactic(auto, using(ns_base::proofs::StepLaws::reached_more, ns_base::proofs::StepLaws::reached_end, crate::proofs::ReadLaws::rows_are_read))]
fn add_rows<'a>(alloc: Global, components: &'a Array) -> Result<Rows<'a>, ListFault>
    requires { item_count (array_view components.now) ≤ 256 }
    ensures exact { IsExact is_memory result (reached (add_row (array_view components.now)) [] (item_count (array_view components.now))) }
    ensures list { IfOk result IsReadList }
{
    let mut rows = Rows::new(alloc);
    for place in 0..item_count(components) {
        add_row(alloc, &mut rows, components, place)?;
    }
    Ok(rows)
}

fn read_rows(alloc: Global, components: &Array) -> Result<Listed, ListFault>
    ensures exact { IsExact is_memory result (rows_in (array_view components.now)) }
    ensures list { IfOk result IsReadList }
{
    if item_count(components) as u64 > limit(Counted::Components) {
        return Err(ListFault::Limit(Counted::Components));
    }
    let rows = add_rows(alloc, components)?;
    Ok(Listed {
        rows: rows.into_rows(),
    })
}

fn read_root(alloc: Global, root: &Table) -> Result<Listed, ListFault>
    ensures exact { IsExact is_memory result (rows_of (table_view root.now)) }
    ensures list { IfOk result IsReadList }
{
    refuse_key(alloc, 0, wrong_member(Level::Root, root))?;
    match array_at(root, "component") {
        Some(components) => read_rows(alloc, components),
        None => Ok(Listed {
            rows: Vec::new(alloc),
        }),
    }
}

/// The rows that the text of a component list says, or its first fault.
#[tactic(auto, unfolding(crate::specs::Reading::listed_of))]
pub fn read_list(alloc: Global, bytes: &[u8]) -> Result<Listed, ListFault>
    ensures exact { IsExact is_memory result (listed_of bytes.now) }
    ensures list { IfOk result IsReadList }
{
    let root = read_document(alloc, bytes)?;
    read_root(alloc, &root)
}
