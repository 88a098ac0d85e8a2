//! A log of the facts that the flow rules derive for one lock field: each with its reason, which cites earlier lines.
//!
//! - `log` has what a log is made of; `lines` tests a line.
//! - `work` has a log that is being made, and `missing` what it lacks.
//! - `gathering` makes a log quickly: `leading` pushes what a line leads to, `moving` what a view does, and `entering` where methods
//!   begin and end.
//! - `seek` searches for what may still be added.
//! - `logging` makes the log of a solution.
#![tactic(auto)]

mod entering;
mod gathering;
mod leading;
mod lines;
mod log;
mod logging;
mod missing;
mod moving;
mod seek;
mod work;

pub use log::{FactLog, Line, Why};
pub use logging::log_facts;
