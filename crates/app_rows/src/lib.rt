//! The rows of one application, made of the contents of several files.
//!
//! `specs/Numbers.antt` says how types, names and prototypes are numbered, and `specs/Linked.antt` what the
//! application of some files is.
//!
//! - `seen` numbers texts and prototypes by content, `numbers` those of the files.
//! - `rows` and `bodies` move a file's rows and code into the application's numbers.
//! - `members` collects classes with their members, file by file.
//! - `making` joins these: `make_rows`.
#![tactic(auto)]

mod bodies;
mod making;
mod members;
mod numbers;
mod rows;
mod seen;

pub use making::make_rows;
pub use numbers::number_at;
