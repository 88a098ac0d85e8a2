//! Observers that are told how a run went: the two kinds that write what they are told. What telling leaves of
//! those of a list is said in `specs/Telling.antt`, with its laws in `proofs/Numbers.antt`; the program has the
//! telling itself, since a function over a list of `dyn` from another crate is refused there.
//!
//! - `json` writes each event as a line of JSON, `counts` a line of counts at the end.
//! - `lines` has the lines, `writing` writes them whole, `noting` writes one and keeps its event.
#![tactic(auto)]

mod counts;
mod json;
mod lines;
mod noting;
#[cfg(test)]
mod tests;
mod writing;

pub use counts::CountWatcher;
pub use json::JsonWatcher;
