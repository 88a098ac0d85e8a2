//! The lines of a report behind its head: its bodies, its views, and its last step.
//!
//! - `fields` adds numbers and statuses, `lines` the lines, `whole` all of a report.
#![tactic(auto)]

mod fields;
mod lines;
#[cfg(test)]
mod tests;
mod whole;

pub use whole::put_path;
