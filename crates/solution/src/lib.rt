//! What the flow rules have of one lock field: the facts, eight entry statuses by eight statuses in a word.
//!
//! - `words` has masks of statuses and words as relations between statuses, and their products.
//! - `table` has rows of words, of which each is joined into.
//! - `solution` has the facts of a subject.
#![tactic(auto)]

mod solution;
mod table;
mod words;

pub use solution::Solution;
pub use words::{
    all_of, end_of, first_of, itself, join, lead, one, row_of, shifted, single, without,
};
