//! Instructions and payloads of a method's code units, read as the Dalvik bytecode page says.
//!
//! - `table` has the format and the kind of each opcode.
//! - `operands` reads the operands of a format, and `instructions` makes an instruction of them.
//! - `decoding` joins these: `decode_at`.
//! - `payloads` reads the tables of the switches and the data of arrays; `ident` names their first units, and `laws` gives each its number.
//! - `faults` says what can be wrong with a method's code, here and in its control flow.
#![tactic(auto)]

mod decoding;
mod faults;
pub mod ident;
mod instructions;
mod laws;
mod operands;
mod payloads;
mod table;

pub use decoding::decode_at;
pub use faults::CodeFault;
pub use laws::payload_law;
pub use payloads::{Payload, payload_len, read_payload};

#[cfg(test)]
mod tests;
