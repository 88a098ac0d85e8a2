//! What one instruction does, and what it does to tags: thirteen kinds of acts, told once for rules and machine.
//!
//! - `act` tells what an instruction does.
//! - `row` is a row of tags, `changes` what an act does to one of its cells.
//! - `tags` joins what is known of a register.
#![tactic(auto)]

mod act;
mod changes;
mod row;
mod tags;

pub use act::{Act, Gives, LockOp, Returned, Throws, Written, act_of, op_of};
pub use changes::{call_change, receiver_tag, stored_change, tag_after, tag_called, tag_thrown};
pub use row::Row;
pub use tags::join;

#[cfg(test)]
mod tests;
