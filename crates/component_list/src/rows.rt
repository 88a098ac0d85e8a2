//! The components of a list, one by one.
ghost use Rattle.std.specs.Prelude.{◌≡◌, ◌<◌, codes, option_map, string_bytes, IfOk, []};
ghost use Rattle.ns_base.specs.Steps.{Gives, IsExact};
ghost use Rattle.toml.specs.View.{table_view};
ghost use Rattle.component_list.specs.Reading.{is_memory, keys_are_right, kind_named, kind_of, row_of, text_at, with_row};

use crate::exits::{kind_named, read_exits};
use crate::fault::{KeyText, ListFault};
use crate::keys::wrong_key;
use crate::listed::ListedRow;
use crate::values::{array_at, text_at};
use app_model::Kind;
use std::alloc::{AllocError, Global};
use std::collections::HashSet;
use std::marker::Model;
use toml::Table;

fn copy_text(alloc: Global, text: &str) -> Result<String, AllocError>
    ensures { IfOk result (λ copy. string_bytes copy ≡ text.now) }
{
    String::from_str(alloc, text)
}

/// A wrong key as the fault of the table of this number; the document is number 0.
pub(crate) fn refuse_key(alloc: Global, number: u32, wrong: Option<&str>) -> Result<(), ListFault>
    ensures { IsExact is_memory result (keys_are_right number (option_map (λ k. k.now) wrong.entry)) }
{
    let Some(key) = wrong else {
        return Ok(());
    };
    match copy_text(alloc, key) {
        Ok(text) => Err(ListFault::Key(number, KeyText::new(text))),
        Err(AllocError) => Err(ListFault::Memory),
    }
}

fn read_kind(component: u32, name: &str) -> Result<Kind, ListFault>
    ensures { result ≡ kind_of component (kind_named name.now) }
{
    match kind_named(name) {
        Some(kind) => Ok(kind),
        None => Err(ListFault::Kind(component)),
    }
}

/// A component, by its table.
#[tactic(auto, unfolding(crate::specs::Reading::row_of))]
pub(crate) fn read_row(alloc: Global, component: u32, table: &Table) -> Result<ListedRow, ListFault>
    requires { component < 256 }
    ensures row { IsExact is_memory result (row_of component (table_view table.now)) }
    ensures class { IfOk result (λ row. row.class ≡ text_at (codes "class") (table_view table.now)) }
{
    refuse_key(alloc, component + 1, wrong_key(table))?;
    let kind = read_kind(component, text_at(table, "kind"))?;
    let exits = read_exits(component, kind, array_at(table, "exits"))?;
    let class = copy_text(alloc, text_at(table, "class"))?;
    Ok(ListedRow { kind, class, exits })
}

/// The rows so far.
#[derive(Drop)]
pub(crate) struct Rows<'a> {
    rows: Vec<ListedRow>,
    // Their classes.
    classes: HashSet<&'a str>,
}

impl<'a> Model for Rows<'a> {
    ghost use Rattle.std.specs.Prelude.{◌≡◌, bytes_eq, ℕ, List};
    ghost use Rattle.std.specs.Borrow.{Bor};
    ghost use Rattle.std.specs.List.{list_any};
    ghost use Rattle.component_list.specs.Listed.{ListedParts};
    ghost use Rattle.component_list.specs.Reading.{has_class};

    ghost Value = { List ListedParts };

    ghost view = { λ r. r.rows.items };

    ghost invariant = { λ r. (class : Bor (List ℕ)) → list_any (λ k. bytes_eq class.now k.now) r.classes.keys ≡ has_class class.now r.rows.items };
}

impl<'a> Rows<'a> {
    /// No rows.
    pub fn new(alloc: Global) -> Rows<'a>
        ensures { result ≡ [] }
    {
        Rows {
            rows: Vec::new(alloc),
            classes: HashSet::new(alloc),
        }
    }

    /// Puts the row of a component last, unless an earlier one has its class.
    pub fn add(&mut self, component: u32, class: &'a str, row: ListedRow) -> Result<(), ListFault>
        requires { row.class ≡ class.now }
        ensures { Gives is_memory (λ done. self.new) result (with_row component self.old row) }
    {
        self.rows.reserve(1)?;
        if !self.classes.insert(class)? {
            return Err(ListFault::Twice(component));
        }
        match self.rows.push(row) {
            Ok(()) => Ok(()),
            Err(_) => unreachable!(),
        }
    }

    /// The rows.
    pub fn into_rows(self) -> Vec<ListedRow>
        ensures { result.items ≡ self.entry }
    {
        self.rows
    }
}
