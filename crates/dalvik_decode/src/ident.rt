//! The first units of payloads, under the names of the format page. The low byte of each is that of
//! `nop`, and no `nop` has such a high byte.

/// The table of a packed switch.
pub const PACKED_SWITCH_PAYLOAD: u16 = 0x0100;

/// The table of a sparse switch.
pub const SPARSE_SWITCH_PAYLOAD: u16 = 0x0200;

/// The data of an array.
pub const FILL_ARRAY_DATA_PAYLOAD: u16 = 0x0300;
