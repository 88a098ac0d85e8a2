//! Little-endian numbers at a place.
ghost use Rattle.std.specs.Prelude.{◌≡◌, ◌+◌, ◌≤◌, length};
ghost use Rattle.dex_bytes.specs.Numbers.{u16_at, u32_at};

use byteorder::{ByteOrder, LittleEndian};

/// The two bytes at `at`.
#[tactic(auto, unfolding(crate::specs::Numbers::u16_at))]
pub fn u16_from(bytes: &[u8], at: usize) -> u16
    requires { at + 2 ≤ length bytes.now }
    ensures { result ≡ u16_at bytes.now at }
{
    let (_, rest) = bytes.split_at(at);
    LittleEndian::read_u16(rest)
}

/// The four bytes at `at`.
#[tactic(auto, unfolding(crate::specs::Numbers::u32_at))]
pub fn u32_from(bytes: &[u8], at: usize) -> u32
    requires { at + 4 ≤ length bytes.now }
    ensures { result ≡ u32_at bytes.now at }
{
    let (_, rest) = bytes.split_at(at);
    LittleEndian::read_u32(rest)
}
