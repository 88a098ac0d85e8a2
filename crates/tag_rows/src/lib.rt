//! Rows of tags while a table of them is made: what is joined into a cell, and what flows from a row.
//!
//! - `rows` has the cells of all methods, and joins into one.
//! - `runs` joins cells of one row into those of another one.
//! - `change` is what flows from an instruction of its row.
//! - `starts` has the rows at a method's start.
//! - `sites` numbers the calls that make a lock.
//! - `queue` and `chains` have numbers of places that are worth a look, `walk` the methods, callees before callers.
#![tactic(auto)]

mod chains;
mod change;
mod queue;
mod rows;
mod runs;
mod sites;
mod starts;
mod walk;

pub use chains::{Chains, number_of};
pub use change::{Change, Kept, change_tag, kept_by};
pub use queue::{Queue, WORD};
pub use rows::{RowAt, Rows};
pub use runs::{Pair, Run};
pub use sites::{Site, find_sites, is_make, makes_lock, site_of};
pub use starts::{callback_tag, called_tag, entering};
pub use walk::callees_first;
