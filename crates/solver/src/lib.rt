//! The least set of facts of a lock field under the rules inside callbacks.
//!
//! - `task` has the subject and the lock, and places in its code.
//! - `ask` asks the masks of an instruction; `throws`, `calls` and `visit` apply the rules from it.
//! - `approach` leads on what is new, from a list of places, which `agenda` keeps; `sweep` visits all instructions until nothing
//!   changes.
#![tactic(auto)]

mod agenda;
mod approach;
mod ask;
mod calls;
mod sweep;
mod task;
mod throws;
mod visit;

pub use approach::{Worklist, approach_calls};
pub use sweep::{settle, solve_calls};
pub use task::Task;
