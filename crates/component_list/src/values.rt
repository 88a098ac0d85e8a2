//! What stands in the tables and arrays of a document.
ghost use Rattle.std.specs.Prelude.{◌≡◌, option_and_then, option_map};
ghost use Rattle.toml.specs.Data.{as_str, as_table, get_item, get_member};
ghost use Rattle.toml.specs.View.{array_view, table_view, view};
ghost use Rattle.component_list.specs.Reading.{array_at, item_count, text_at, text_in, text_or_none};

use toml::value::Array;
use toml::{Table, Value};

/// The value of a key.
pub(crate) fn member<'a>(table: &'a Table, key: &str) -> Option<&'a Value>
    ensures { option_map (λ v. view v.now) result ≡ get_member key.now (table_view table.now) }
{
    table.get(key)
}

/// The array of a key, where it has one.
pub(crate) fn array_at<'a>(table: &'a Table, key: &str) -> Option<&'a Array>
    ensures { option_map (λ a. array_view a.now) result ≡ array_at key.now (table_view table.now) }
{
    match member(table, key) {
        Some(value) => value.as_array(),
        None => None,
    }
}

fn text_of(value: Option<&Value>) -> &str
    ensures { result.now ≡ text_or_none (option_and_then as_str (option_map (λ v. view v.now) value.entry)) }
{
    match value {
        Some(Value::String(text)) => text.as_str(),
        _ => "",
    }
}

/// The text of a key; empty where it has none.
pub(crate) fn text_at<'a>(table: &'a Table, key: &str) -> &'a str
    ensures { result.now ≡ text_at key.now (table_view table.now) }
{
    text_of(member(table, key))
}

/// How many items an array has.
pub(crate) fn item_count(array: &Array) -> usize
    ensures { result ≡ item_count (array_view array.now) }
{
    array.len()
}

fn item(array: &Array, place: usize) -> Option<&Value>
    ensures { option_map (λ v. view v.now) result ≡ get_item place (array_view array.now) }
{
    if place < array.len() {
        Some(&array[place])
    } else {
        None
    }
}

/// The text at a place; empty where there is none.
pub(crate) fn text_in(array: &Array, place: usize) -> &str
    ensures { result.now ≡ text_in (array_view array.now) place }
{
    text_of(item(array, place))
}

/// The table at a place.
pub(crate) fn table_in(array: &Array, place: usize) -> Option<&Table>
    ensures { option_map (λ t. table_view t.now) result ≡ option_and_then as_table (get_item place (array_view array.now)) }
{
    match item(array, place) {
        Some(value) => value.as_table(),
        None => None,
    }
}
