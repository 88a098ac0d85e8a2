//! Which lines and views of a log of facts are looked at next, and what goes on where a method ends. It promises nothing: what
//! stands here decides where is looked first, and not what is found.
//!
//! - `queue` has what is next and what waits, in `chains`, and the moves that other components see in `movers`.
#![tactic(auto)]

mod chains;
mod movers;
mod queue;

pub use chains::{Chains, Link};
pub use movers::{Move, Mover, Movers};
pub use queue::{Queue, Wait, key};
