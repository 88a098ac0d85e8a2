//! The numbers of the format's id tables.
ghost use Rattle.std.specs.Prelude.{◌≡◌, ◌+◌, ◌*◌, ◌≤◌, length, nat_lt};

use dex_bytes::Part;

/// How many bytes a row of each table has.
pub const STRING_ID_SIZE: u32 = 4;

pub const TYPE_ID_SIZE: u32 = 4;

pub const PROTO_ID_SIZE: u32 = 12;

pub const FIELD_ID_SIZE: u32 = 8;

pub const METHOD_ID_SIZE: u32 = 8;

pub const CLASS_DEF_SIZE: u32 = 32;

/// The numbers of the tables in faults.
pub const STRINGS: u8 = 0;

pub const TYPES: u8 = 1;

pub const PROTOS: u8 = 2;

pub const FIELDS: u8 = 3;

pub const METHODS: u8 = 4;

pub const CLASSES: u8 = 5;

/// The superclass of a class that has none.
pub const NO_PARENT: u32 = 0xffff_ffff;

/// A table with rows of so many bytes ends past the file.
pub fn ends_past(bytes: &[u8], part: Part, width: u32) -> bool
    requires { width ≤ 32 }
    ensures { result ≡ nat_lt (length bytes.now) (part.off + width * part.size) }
{
    let end = u64::from(part.off) + u64::from(width) * u64::from(part.size);
    (bytes.len() as u64) < end
}

/// The place of a row.
pub fn row_at(part: Part, width: u32, row: u32) -> usize
    requires { width ≤ 32 }
    ensures { result ≡ part.off + width * row }
{
    part.off as usize + width as usize * row as usize
}
