//! The id tables of a DEX file that is built, numbered by first sight.
//!
//! `specs/Spelling.antt` says how texts and shorties are spelled, `specs/Tables.antt` in which order names
//! are seen and which number each has.
//!
//! - `spelling` has MUTF-8 and shorties.
//! - `rows` numbers texts and rows, `tables` joins the tables of a file.
//! - `fault` says why a builder refuses.
#![tactic(auto)]

mod fault;
mod rows;
mod spelling;
mod tables;
#[cfg(test)]
mod tests;

pub use fault::BuildFault;
pub use tables::{Mark, Tables};
