//! What a code item says.
use dex_tables::Slice;
use std::marker::Model;

/// Where control goes on after a throw: the type that is caught, or every one, and the code unit.
#[derive(Clone, Copy, Debug, PartialEq, Eq)]
pub struct Handler {
    pub caught: Option<u32>,
    pub target: u32,
}

/// Some code units that handlers cover: the first, how many, and the handlers, at their place in
/// `CodeItem.handlers`.
#[derive(Clone, Copy, Debug, PartialEq, Eq)]
pub struct TryRow {
    pub start: u32,
    pub count: u32,
    pub handlers: Slice,
}

/// The code of a method. The arguments are in the last `ins` registers. `handlers` has the handlers of
/// all tries one after another.
#[derive(Drop)]
pub struct CodeItem {
    pub registers: u16,
    pub ins: u16,
    pub outs: u16,
    pub units: Vec<u16>,
    pub tries: Vec<TryRow>,
    pub handlers: Vec<Handler>,
}

impl Model for CodeItem {
    ghost use Rattle.dex_code.specs.Content.{CodeContent};

    ghost Value = { CodeContent };

    ghost view = { λ c. record {
      registers = c.registers;
      ins = c.ins;
      outs = c.outs;
      units = c.units.items;
      tries = c.tries.items;
      handlers = c.handlers.items;
    } };
}
