//! The control flow of a method: where control can go from each instruction, handlers of exceptions
//! included.
//!
//! - `sweep` goes over the code units from the front, instruction by instruction, and notes what starts where.
//! - `registers` and `operands` check what an instruction names.
//! - `flow` says where control goes from an instruction.
//! - `tries` finds the handlers that a throw can come to.
//! - `graph` joins these: `build_graph`, and `build_graph_with` for many methods of one file.
#![tactic(auto)]

mod flow;
mod graph;
mod operands;
mod registers;
mod sweep;
#[cfg(test)]
mod tests;
mod tries;

pub use graph::{build_graph, build_graph_with};
pub use operands::ParamSums;
