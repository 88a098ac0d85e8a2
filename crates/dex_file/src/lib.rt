//! Whole DEX files, read once: tables, classes with their members, and the control flow of their
//! methods.
//!
//! `specs/Content.antt` says what a file's content is, and `specs/Reading.antt` in which order it is
//! read and which fault is the first. `specs/Sound.antt` says what holds of every content.
//!
//! - `fault` says what can be wrong with a file.
//! - `parts` has what is kept of a file.
//! - `sums` counts what is limited over the whole file.
//! - `methods` reads the code of methods, `classes` the class rows.
//! - `reading` joins these: `read_dex`.
//! - `names` reads the name of a class from the tables alone.
#![tactic(auto)]

mod classes;
mod fault;
mod methods;
mod names;
mod parts;
mod reading;
mod sums;
#[cfg(test)]
mod tests;

pub use fault::FileFault;
pub use names::class_name;
pub use parts::{DexParts, FileClass, FileCode, FileField, FileMethod, FileParts, FileProto};
pub use reading::{content_law, read_dex, short_law, sound_law};
