//! How several files become one application, and what can be wrong with them.
//!
//! `specs/Linking.antt` says which fault of some files is the first. What their application is, `app_rows` says.
//!
//! - `link_fault` says what can be wrong with several files.
//! - `class_checks` finds two classes of one name, and tells a class's file and row.
//! - `code_checks` finds methods that lack code, or have some that they are not to have.
//! - `cycles` finds a class that is its own ancestor; `ranks` makes that quick.
//! - `limits` counts what is limited over the whole application.
//! - `linking` joins these: `link`, with `app_law` on what holds of the application.
#![tactic(auto)]

mod class_checks;
mod code_checks;
mod cycles;
mod limits;
mod link_fault;
mod linking;
mod ranks;
#[cfg(test)]
mod tests;

pub use link_fault::LinkFault;
pub use linking::{app_law, link};
