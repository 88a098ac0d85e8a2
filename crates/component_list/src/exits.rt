//! The policy exits that a component names.
ghost use Rattle.std.specs.Prelude.{◌≡◌, ◌<◌, ◌^◌, bytes_eq, option_map, position};
ghost use Rattle.ns_base.specs.Steps.{IsExact, reached};
ghost use Rattle.toml.specs.View.{array_view};
ghost use Rattle.component_list.specs.Reading.{add_exit, default_exits, exits_in, is_memory, item_count, kind_named};

use crate::callbacks::callback_number;
use crate::fault::ListFault;
use crate::values::{item_count, text_in};
use app_model::Kind;
use toml::value::Array;

/// The kind of a name.
pub(crate) fn kind_named(name: &str) -> Option<Kind>
    ensures { result ≡ kind_named name.now }
{
    match name {
        "activity" => Some(Kind::Activity),
        "service" => Some(Kind::Service),
        "receiver" => Some(Kind::Receiver),
        "runnable" => Some(Kind::Runnable),
        _ => None,
    }
}

fn default_exits(kind: Kind) -> u8
    ensures { result ≡ default_exits kind }
{
    match kind {
        Kind::Activity => 0b101_1000,
        Kind::Service => 0b100_0000,
        Kind::Receiver | Kind::Runnable => 1,
    }
}

// A list of 4294967295 bytes has fewer names than that; a name past the last number would count as want
// of memory.
fn add_exit(
    component: u32,
    kind: Kind,
    names: &Array,
    place: usize,
    mask: u8,
) -> Result<u8, ListFault>
    ensures { IsExact is_memory result (add_exit component kind (array_view names.now) place mask) }
{
    match callback_number(kind, text_in(names, place)) {
        Some(callback) => Ok(mask | 1 << callback),
        None => match u32::try_from(place) {
            Ok(place) => Err(ListFault::ExitName(component, place)),
            Err(_) => Err(ListFault::Memory),
        },
    }
}

#[tactic(auto, using(ns_base::proofs::StepLaws::reached_more, ns_base::proofs::StepLaws::reached_end))]
fn named_exits(component: u32, kind: Kind, names: &Array) -> Result<u8, ListFault>
    ensures { IsExact is_memory result (reached (add_exit component kind (array_view names.now)) 0 (item_count (array_view names.now))) }
{
    let mut mask = 0;
    for place in 0..item_count(names) {
        mask = add_exit(component, kind, names, place, mask)?;
    }
    Ok(mask)
}

/// The exits of a component that has these names for them, or none.
pub(crate) fn read_exits(component: u32, kind: Kind, names: Option<&Array>) -> Result<u8, ListFault>
    ensures { IsExact is_memory result (exits_in component kind (option_map (λ a. array_view a.now) names.entry)) }
{
    match names {
        None => Ok(default_exits(kind)),
        Some(names) if item_count(names) == 0 => Err(ListFault::EmptyExits(component)),
        Some(names) => named_exits(component, kind, names),
    }
}
