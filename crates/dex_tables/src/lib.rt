//! The id tables of a DEX file: strings, types, prototypes, fields, methods and classes.
//!
//! `specs/Rows.antt` says what each row says, `specs/Sound.antt` when the rows are sound,
//! `specs/Content.antt` what the tables of a file are, and `specs/Reading.antt` in which order they
//! are read.
#![tactic(auto)]

mod classes;
mod fields;
mod layout;
mod lists;
mod methods;
mod named;
mod protos;
mod reading;
mod stop;
mod strings;
mod tables;
#[cfg(test)]
mod tests;
mod types;

pub use reading::{read_tables, tables_law};
pub use stop::Stop;
pub use strings::string_bytes;
pub use tables::{ClassDef, FieldId, MethodId, ProtoId, Slice, Tables};
