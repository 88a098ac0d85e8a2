//! The bottom of the reader of DEX 035 files: numbers, text and the header. No call takes memory.
#![tactic(auto)]

mod checksum;
mod fault;
mod header;
mod layout;
mod leb128;
mod numbers;
mod places;
#[cfg(test)]
mod tests;
mod text;

pub use checksum::adler32;
pub use fault::DexFault;
pub use header::{HEADER_SIZE, front_fault, header_from, header_laws, read_header};
pub use layout::{Header, Part};
pub use leb128::{sleb, uleb};
pub use numbers::{u16_from, u32_from};
pub use places::number_from;
pub use text::{mutf8, text_laws};
