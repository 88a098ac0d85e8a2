//! The Dalvik bytecode as all layers see it: instructions, opcodes, registers, and bodies with their control flow.
//!
//! - `ins` has the instructions, and `naming` the rows of the id tables that they name.
//! - `opcode` names the opcodes, `access` the access flags; `laws` gives each its number; `wide` tells the opcodes of pairs.
//! - `few` is a short list of numbers that mostly takes no heap.
//! - `body` has the places of a method's code: each instruction with where control can go from it.
//!
//! What is said of them stands in `specs/`: `Registers` (which registers an instruction names), `Naming` (which row
//! of an id table), `Calls` (its arguments), `Access` (flags), `Body` (what holds of every body).
#![tactic(auto)]

pub mod access;
mod body;
mod few;
mod ins;
mod laws;
mod naming;
pub mod opcode;
mod wide;

pub use body::{Body, Place};
pub use few::Few;
pub use ins::{Args, Ins};
pub use laws::{access_law, opcode_law};
pub use naming::Naming;
pub use wide::{is_wide_binary, is_wide_const, is_wide_move, is_wide_unary};

#[cfg(test)]
mod tests;
