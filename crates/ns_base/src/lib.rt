//! What all crates of nosleep share.
//!
//! - `rows` has the numbers of rows of the linked application.
//! - `answers` has limits, exits and events.
//! - `outside` has the outside as traits.
//! - `lists` is a list of lists in one block of items.
//! - `specs/Steps.antt` says what a reading in steps gives, with its first fault, whatever the type of
//!   faults; `proofs/StepLaws.antt` has the laws for loops over such steps.
#![tactic(auto)]

mod answers;
mod lists;
mod outside;
mod rows;
#[cfg(test)]
mod tests;

pub use answers::{Counted, Event, Exit, limit, number};
pub use lists::{Lists, Texts};
pub use outside::{Failed, OutOfMemory, Shelf, Sink, Untold, Watcher};
pub use rows::{ClassNo, ComponentNo, FieldNo, LockNo, MethodNo, NameNo, ProtoNo, TypeNo};
