//! Whether an application is in scope, or else the first broken rule.
//!
//! - `survey` is all that is known before the rules are looked at, `rules` has the tests of the rules at a place.
//! - `pass` goes over all places and keeps the first broken rule, in the order of `found`.
//! - `answers` and `owners` complete the subject of an application that breaks no rule.
#![tactic(auto)]

mod answers;
mod found;
mod owners;
mod pass;
mod rules;
mod scoping;
mod survey;

pub use scoping::{ScopeFault, scope};
