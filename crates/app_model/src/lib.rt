//! The linked application and all that is said of it, as all layers share it. Instructions and bodies stand in `dalvik`.
//!
//! - `rows` and `app` are the linked application, read through accessors.
//! - `names` spells types, names and prototypes.
//! - `lock_use` and `slots` tell calls and fields of wake locks apart from others.
//! - `shown` writes names as they are printed.
//! - `component` has the components and their lifecycles.
//! - `hierarchy` has the classes of types, and those above them.
//! - `laws` has what holds of every application and call graph.
//! - `tag` is what is known of a register's value; `tag_table` has it before each instruction.
//! - `calls` says how a call finds its method; `call_graph` has what each call can call.
//! - `subject` joins them: the rules read it.
#![tactic(auto)]

mod app;
mod call_graph;
mod calls;
mod component;
mod hierarchy;
mod laws;
mod lock_use;
mod names;
mod rows;
mod shown;
mod slots;
mod subject;
mod tag;
mod tag_table;

pub use app::App;
pub use call_graph::{CallGraph, TargetRow};
pub use calls::{By, call_by};
pub use component::{ComponentRow, ComponentTable, Edge, Kind};
pub use laws::{hierarchy_law, reach_law};
pub use lock_use::LockUse;
pub use names::{POWER_MANAGER, STRING, WAKE_LOCK};
pub use rows::{AppRows, ClassRow, FieldRow, MethodRow, Named, NamedField, Operand, ProtoRow};
pub use shown::{push_member, push_shown};
pub use subject::Subject;
pub use tag::Tag;
pub use tag_table::TagTable;

#[cfg(test)]
mod tests;
