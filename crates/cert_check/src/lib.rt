//! The checker of certificates. It trusts none: for each lock field it tests that the facts of the certificate are closed
//! under the flow rules and meet the exit policy. It takes no memory.
//!
//! - `verdict` has the answers.
#![tactic(auto)]

mod between;
mod checking;
mod inside;
mod places;
mod policy;
mod verdict;

pub use checking::check;
pub use verdict::{Checked, Rule};
