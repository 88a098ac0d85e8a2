//! Reads back the text of reports.
//!
//! - `fields` reads the fields of a line, `steps` those of a body's steps, `ways` those of a view's way.
//! - `lines` has the line that bytes spell.
//! - `reading` reads all lines, up to the first wrong one.
#![tactic(auto)]

mod fields;
mod lines;
mod reading;
mod steps;
#[cfg(test)]
mod tests;
mod ways;

pub use reading::{ReadBack, read_reports, written_is_read};
