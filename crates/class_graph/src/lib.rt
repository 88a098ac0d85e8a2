//! The class hierarchy of an application, answered quickly: which type stands above another, and which
//! member is found in a class or in the nearest one above it.
//!
//! - `graph` is the hierarchy with its answers, `building` makes it.
//! - `kinds` has a row for each type, `above` one for each class; `walk` finds the types above interfaces.
//! - `members` finds the methods and fields of a class by name and prototype or type.
#![tactic(auto)]

mod above;
mod building;
mod graph;
mod kinds;
mod members;
mod walk;

pub use building::build;
pub use graph::{ClassGraph, Found};
pub use kinds::is_unknown;
