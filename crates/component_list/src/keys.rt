//! The keys of the tables of a component list.
ghost use Rattle.std.specs.Prelude.{◌≡◌, option_map};
ghost use Rattle.toml.specs.Data.{get_member};
ghost use Rattle.toml.specs.View.{array_view, table_view, view};
ghost use Rattle.component_list.specs.Keys.{each_item, earlier, is_array_of, is_component_key, is_item, is_key, is_root_key, missing_key, wrong_key, wrong_member};

use crate::values::member;
use toml::value::Array;
use toml::{Table, Value};

/// A table of a component list: the document itself, or a component.
#[derive(Clone, Copy, Debug, PartialEq, Eq)]
pub(crate) enum Level {
    Root,
    Component,
}

fn is_item(level: Level, value: &Value) -> bool
    ensures { result ≡ is_item level (view value.now) }
{
    match level {
        Level::Root => value.is_table(),
        Level::Component => value.is_str(),
    }
}

fn are_items(level: Level, array: &Array) -> bool
    ensures { result ≡ each_item (is_item level) (array_view array.now) }
{
    'items: for item in array {
        if !is_item(level, item) {
            return false;
        }
    }
    true
}

fn is_array_of(level: Level, value: &Value) -> bool
    ensures { result ≡ is_array_of (is_item level) (view value.now) }
{
    match value {
        Value::Array(array) => are_items(level, array),
        _ => false,
    }
}

fn is_root_key(key: &str, value: &Value) -> bool
    ensures { result ≡ is_root_key key.now (view value.now) }
{
    if key == "profile" {
        value.as_integer() == Some(1)
    } else if key == "component" {
        is_array_of(Level::Root, value)
    } else {
        false
    }
}

fn is_component_key(key: &str, value: &Value) -> bool
    ensures { result ≡ is_component_key key.now (view value.now) }
{
    if key == "class" || key == "kind" {
        value.is_str()
    } else if key == "exits" {
        is_array_of(Level::Component, value)
    } else {
        false
    }
}

fn is_key(level: Level, key: &str, value: &Value) -> bool
    ensures { result ≡ is_key level key.now (view value.now) }
{
    match level {
        Level::Root => is_root_key(key, value),
        Level::Component => is_component_key(key, value),
    }
}

/// The first key of a table that is unknown, or whose value is of a wrong type.
pub(crate) fn wrong_member<'a>(level: Level, table: &'a Table) -> Option<&'a str>
    ensures { option_map (λ k. k.now) result ≡ wrong_member level (table_view table.now) }
{
    'members: for (key, value) in table.iter() {
        if !is_key(level, key.as_str(), value) {
            return Some(key.as_str());
        }
    }
    None
}

fn missing_key<'a>(table: &Table, key: &'a str) -> Option<&'a str>
    ensures { option_map (λ k. k.now) result ≡ missing_key key.now (table_view table.now) }
{
    match member(table, key) {
        Some(_) => None,
        None => Some(key),
    }
}

fn earlier<'a>(first: Option<&'a str>, second: Option<&'a str>) -> Option<&'a str>
    ensures { option_map (λ k. k.now) result ≡ earlier (option_map (λ k. k.now) first.entry) (option_map (λ k. k.now) second.entry) }
{
    match (first, second) {
        (None, _) => second,
        (Some(_), None) => first,
        (Some(key), Some(other)) => { if key < other { first } else { second } }
    }
}

/// The first key of a component, in byte order, that is unknown, missing or of a wrong type.
#[tactic(auto, unfolding(crate::specs::Keys::wrong_key))]
pub(crate) fn wrong_key<'a>(table: &'a Table) -> Option<&'a str>
    ensures { option_map (λ k. k.now) result ≡ wrong_key (table_view table.now) }
{
    let missing = earlier(missing_key(table, "class"), missing_key(table, "kind"));
    earlier(wrong_member(Level::Component, table), missing)
}
