//! Class data and code items of a DEX file.
//!
//! `specs/ClassData.antt`, `specs/CodeItem.antt` and `specs/HandlerPart.antt` say what stands where,
//! `specs/Content.antt` when members and a code item are what stands there, and `specs/Reading.antt`
//! in which order they are read. `alike` tells which strings of a file are one text, for hostile files.
#![tactic(auto)]

mod alike;
mod class_data;
mod code;
mod code_item;
mod front;
mod handlers;
mod members;
mod numbers;
#[cfg(test)]
mod tests;
mod tries;

pub use alike::TextNumbers;
pub use class_data::{members_law, read_class_members, read_class_members_with};
pub use code::{CodeItem, Handler, TryRow};
pub use code_item::{code_law, read_code};
pub use members::{ClassMembers, Member};
