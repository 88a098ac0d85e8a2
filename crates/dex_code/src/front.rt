//! The front of a code item and the rows of its tries, number by number.
ghost use Rattle.std.specs.Prelude.{◌≡◌, ◌+◌, ◌*◌, ◌≤◌, ◌<◌, ◌^◌, length};
ghost use Rattle.dex_code.specs.CodeItem.{code_registers, code_ins, code_outs, code_tries, code_len, try_place, try_start, try_count, try_offset, handlers_place};

use dex_bytes::{u16_from, u32_from};

/// The size of a code item's front in bytes.
pub const FRONT_SIZE: usize = 16;

/// The size of the row of a try.
pub const TRY_SIZE: usize = 8;

#[tactic(auto, unfolding(crate::specs::CodeItem::code_registers))]
pub fn registers_from(bytes: &[u8], at: usize) -> u16
    requires { at + 16 ≤ length bytes.now }
    ensures { result ≡ code_registers bytes.now at }
{
    u16_from(bytes, at)
}

#[tactic(auto, unfolding(crate::specs::CodeItem::code_ins))]
pub fn ins_from(bytes: &[u8], at: usize) -> u16
    requires { at + 16 ≤ length bytes.now }
    ensures { result ≡ code_ins bytes.now at }
{
    u16_from(bytes, at + 2)
}

#[tactic(auto, unfolding(crate::specs::CodeItem::code_outs))]
pub fn outs_from(bytes: &[u8], at: usize) -> u16
    requires { at + 16 ≤ length bytes.now }
    ensures { result ≡ code_outs bytes.now at }
{
    u16_from(bytes, at + 4)
}

/// How many tries there are.
#[tactic(auto, unfolding(crate::specs::CodeItem::code_tries))]
pub fn tries_from(bytes: &[u8], at: usize) -> u16
    requires { at + 16 ≤ length bytes.now }
    ensures { result ≡ code_tries bytes.now at }
{
    u16_from(bytes, at + 6)
}

/// How many units there are.
#[tactic(auto, unfolding(crate::specs::CodeItem::code_len))]
pub fn len_from(bytes: &[u8], at: usize) -> u32
    requires { at + 16 ≤ length bytes.now }
    ensures { result ≡ code_len bytes.now at }
{
    u32_from(bytes, at + 12)
}

/// Where the row of a try begins, behind the units and their padding.
#[tactic(auto, unfolding(crate::specs::CodeItem::try_place))]
pub fn try_place_from(bytes: &[u8], at: usize, t: u32) -> usize
    requires front { at + 16 ≤ length bytes.now }
    requires len { length bytes.now ≤ 4294967295 }
    ensures value { result ≡ try_place bytes.now at t }
    ensures bound { result < 2 ^ 40 }
{
    let len = len_from(bytes, at) as usize;
    at + FRONT_SIZE + 2 * len + 2 * (len % 2) + TRY_SIZE * t as usize
}

/// The first unit that a try covers.
#[tactic(auto, unfolding(crate::specs::CodeItem::try_start))]
pub fn try_start_from(bytes: &[u8], at: usize, t: u32) -> u32
    requires front { at + 16 ≤ length bytes.now }
    requires row { try_place bytes.now at t + 8 ≤ length bytes.now }
    requires len { length bytes.now ≤ 4294967295 }
    ensures { result ≡ try_start bytes.now at t }
{
    u32_from(bytes, try_place_from(bytes, at, t))
}

/// How many units it covers.
#[tactic(auto, unfolding(crate::specs::CodeItem::try_count))]
pub fn try_count_from(bytes: &[u8], at: usize, t: u32) -> u16
    requires front { at + 16 ≤ length bytes.now }
    requires row { try_place bytes.now at t + 8 ≤ length bytes.now }
    requires len { length bytes.now ≤ 4294967295 }
    ensures { result ≡ try_count bytes.now at t }
{
    u16_from(bytes, try_place_from(bytes, at, t) + 4)
}

/// Where its handlers stand, counted from the beginning of the handler part.
#[tactic(auto, unfolding(crate::specs::CodeItem::try_offset))]
pub fn try_offset_from(bytes: &[u8], at: usize, t: u32) -> u16
    requires front { at + 16 ≤ length bytes.now }
    requires row { try_place bytes.now at t + 8 ≤ length bytes.now }
    requires len { length bytes.now ≤ 4294967295 }
    ensures { result ≡ try_offset bytes.now at t }
{
    u16_from(bytes, try_place_from(bytes, at, t) + 6)
}

/// Where the handler part begins, if there are tries.
#[tactic(auto, unfolding(crate::specs::CodeItem::handlers_place))]
pub fn handlers_place_from(bytes: &[u8], at: usize) -> usize
    requires front { at + 16 ≤ length bytes.now }
    requires len { length bytes.now ≤ 4294967295 }
    ensures value { result ≡ handlers_place bytes.now at }
    ensures bound { result < 2 ^ 40 }
{
    try_place_from(bytes, at, u32::from(tries_from(bytes, at)))
}
