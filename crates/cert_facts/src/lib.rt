//! What the part of a certificate for one lock field tells: its facts, whether it fits the subject, and where the edges of
//! components carry the statuses by those facts. It takes no memory.
//!
//! - `task` has a lock field with its part.
//! - `entered` and `site` have a method that was entered at a status, and an instruction of it.
#![tactic(auto)]

mod carrying;
mod entered;
mod rows;
mod shape;
mod site;
mod task;
mod which;

pub use carrying::{carried, enter, note_all};
pub use entered::Entered;
pub use shape::first_unfit;
pub use site::Site;
pub use task::Task;
