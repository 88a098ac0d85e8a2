//! The least solution of all flow rules for one lock field, and its violations.
//!
//! - `edges` has the edges of a component's lifecycle, `carrying` where they lead the statuses.
//! - `moving` applies the rules between callbacks; `solving` takes turns with those inside.
//! - `judging` lists the violations of a lock field, `listing` those of all.
#![tactic(auto)]

mod carrying;
mod edges;
mod judging;
mod listing;
mod moving;
mod solving;

pub use judging::violations;
pub use listing::{all_violations, bad_masks, list_violations};
pub use solving::{solve, solve_lock};
