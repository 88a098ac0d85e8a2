//! The outside in memory: shelves and sinks that hold their bytes, and observers that hold what they
//! were told. They fail where they are told to, and say in their contracts exactly what each call does.
#![tactic(auto)]

mod files;
mod shelves;
mod sinks;
#[cfg(test)]
mod tests;
mod watchers;

pub use shelves::{CleanShelf, MemoryShelf};
pub use sinks::{CleanSink, MemorySink};
pub use watchers::MemoryWatcher;
