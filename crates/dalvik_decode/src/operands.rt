//! The operands of an instruction, read from its units as its format says.
ghost use Rattle.std.specs.Prelude.{◌≡◌, ◌<◌, ◌≤◌, ◌+◌, ◌*◌, ◌^◌, ℕ, length, slice_index};
ghost use Rattle.std.specs.Int.{cast_signed, w8, w16, w32, w64};
ghost use Rattle.dalvik_decode.specs.Table.{units_of};
ghost use Rattle.dalvik_decode.specs.Operands.{call_operands, constant_operands, fourth_nibble, high_byte, kept, list_of, long_at, operands_of, plain_operands, range_of, signed_nibble, signed_operands, third_nibble, word_at};

use crate::table::Format;
use dalvik::Args;

/// The operands of an instruction. What its format does not have is 0.
#[derive(Clone, Copy)]
pub struct Operands {
    /// Register A.
    pub a: u32,
    /// Register B, or index B.
    pub b: u32,
    /// Register C, or index C.
    pub c: u32,
    /// The number that a constant has.
    pub literal: i64,
    /// The offset of a branch, or the literal of an operation.
    pub signed: i32,
    /// The arguments of a call or a filled array.
    pub args: Args,
}

const NO_ARGS: Args = Args::Range { first: 0, count: 0 };

/// Registers, or registers and an index.
fn plain(a: u32, b: u32, c: u32) -> Operands
    ensures { result ≡ plain_operands a b c }
{
    Operands {
        a,
        b,
        c,
        literal: 0,
        signed: 0,
        args: NO_ARGS,
    }
}

/// A register and the number of a constant.
fn constant(a: u32, literal: i64) -> Operands
    ensures { result ≡ constant_operands a literal }
{
    Operands {
        a,
        b: 0,
        c: 0,
        literal,
        signed: 0,
        args: NO_ARGS,
    }
}

/// Registers, with the offset of a branch or the literal of an operation.
fn signed(a: u32, b: u32, signed: i32) -> Operands
    ensures { result ≡ signed_operands a b signed }
{
    Operands {
        a,
        b,
        c: 0,
        literal: 0,
        signed,
        args: NO_ARGS,
    }
}

/// An index and arguments.
fn call(b: u32, args: Args) -> Operands
    ensures { result ≡ call_operands b args }
{
    Operands {
        a: 0,
        b,
        c: 0,
        literal: 0,
        signed: 0,
        args,
    }
}

/// The high byte of the first unit.
fn high(code: &[u16]) -> u32
    requires { 0 < length code.now }
    ensures { result ≡ high_byte code.now }
{
    code[0] as u32 / 256
}

/// The lower four bits of that byte.
fn third(code: &[u16]) -> u32
    requires { 0 < length code.now }
    ensures { result ≡ third_nibble code.now }
{
    code[0] as u32 / 256 % 16
}

/// The higher four bits of that byte.
pub fn fourth(code: &[u16]) -> u32
    requires { 0 < length code.now }
    ensures { result ≡ fourth_nibble code.now }
{
    code[0] as u32 / 4096
}

/// A unit by its place.
fn unit(code: &[u16], place: usize) -> u32
    requires { place < length code.now }
    ensures { result ≡ slice_index code.now place }
{
    code[place] as u32
}

/// Two units, the low one first.
pub fn word(code: &[u16], place: usize) -> u32
    requires { place + 1 < length code.now }
    ensures { result ≡ word_at code.now place }
{
    code[place] as u32 + 65536 * code[place + 1] as u32
}

/// Four units, the lowest first.
fn long(code: &[u16], place: usize) -> u64
    requires { place + 3 < length code.now }
    ensures { result ≡ long_at code.now place }
{
    word(code, place) as u64 + (1 << 32) * word(code, place + 2) as u64
}

/// Four bits read as a signed number.
fn nibble_sign(nibble: u32) -> i64
    requires { nibble < 16 }
    ensures { result ≡ signed_nibble nibble }
{
    if nibble < 8 {
        nibble as i64
    } else {
        nibble as i64 - 16
    }
}

/// Eight bits read as a signed number.
fn byte_sign(byte: u32) -> i32
    requires { byte < 256 }
    ensures { result ≡ cast_signed w8 byte }
{
    (byte as u8).cast_signed() as i32
}

/// A unit read as a signed number.
fn unit_sign(code: &[u16], place: usize) -> i32
    requires { place < length code.now }
    ensures { result ≡ cast_signed w16 (slice_index code.now place) }
{
    code[place].cast_signed() as i32
}

/// Two units read as a signed number.
fn word_sign(code: &[u16], place: usize) -> i32
    requires { place + 1 < length code.now }
    ensures { result ≡ cast_signed w32 (word_at code.now place) }
{
    word(code, place).cast_signed()
}

/// A unit at the top of 32 bits.
fn high_literal(unit: u32) -> i64
    requires { unit < 2 ^ 16 }
    ensures { result ≡ cast_signed w32 (2 ^ 16 * unit) }
{
    (65536 * unit).cast_signed() as i64
}

/// A unit at the top of 64 bits.
fn wide_high_literal(unit: u32) -> i64
    requires { unit < 2 ^ 16 }
    ensures { result ≡ cast_signed w64 (2 ^ 48 * unit) }
{
    (281_474_976_710_656 * unit as u64).cast_signed()
}

/// A register that is among the first `count`; 0 for one that is not.
fn keep(count: u32, place: u32, register: u32) -> u32
    ensures { result ≡ kept count place register }
{
    if place < count { register } else { 0 }
}

#[tactic(auto, unfolding(crate::specs::Operands::list_of))]
/// The arguments that are named one by one.
fn list(code: &[u16]) -> Args
    requires { 3 ≤ length code.now }
    ensures { result ≡ list_of code.now }
{
    let count = fourth(code);
    let last = unit(code, 2);
    Args::List {
        count: count as u8,
        registers: [
            keep(count, 0, last % 16),
            keep(count, 1, last / 16 % 16),
            keep(count, 2, last / 256 % 16),
            keep(count, 3, last / 4096),
            keep(count, 4, third(code)),
        ],
    }
}

/// The arguments that are a range.
fn range(code: &[u16]) -> Args
    requires { 3 ≤ length code.now }
    ensures { result ≡ range_of code.now }
{
    Args::Range {
        first: unit(code, 2),
        count: high(code),
    }
}

/// The operands that a format has in these units.
#[inline]
pub fn read_operands(format: Format, code: &[u16]) -> Operands
    requires { units_of format ≤ length code.now }
    ensures { result ≡ operands_of format code.now }
{
    match format {
        Format::F10x => plain(0, 0, 0),
        Format::F12x => plain(third(code), fourth(code), 0),
        Format::F11n => constant(third(code), nibble_sign(fourth(code))),
        Format::F11x => plain(high(code), 0, 0),
        Format::F10t => signed(0, 0, byte_sign(high(code))),
        Format::F20t => signed(0, 0, unit_sign(code, 1)),
        Format::F22x => plain(high(code), unit(code, 1), 0),
        Format::F21t => signed(high(code), 0, unit_sign(code, 1)),
        Format::F21s => constant(high(code), unit_sign(code, 1) as i64),
        Format::F21h => constant(high(code), high_literal(unit(code, 1))),
        Format::F21hWide => constant(high(code), wide_high_literal(unit(code, 1))),
        Format::F21c => plain(high(code), unit(code, 1), 0),
        Format::F23x => plain(high(code), unit(code, 1) % 256, unit(code, 1) / 256),
        Format::F22b => signed(
            high(code),
            unit(code, 1) % 256,
            byte_sign(unit(code, 1) / 256),
        ),
        Format::F22t => signed(third(code), fourth(code), unit_sign(code, 1)),
        Format::F22s => signed(third(code), fourth(code), unit_sign(code, 1)),
        Format::F22c => plain(third(code), fourth(code), unit(code, 1)),
        Format::F30t => signed(0, 0, word_sign(code, 1)),
        Format::F32x => plain(unit(code, 1), unit(code, 2), 0),
        Format::F31i => constant(high(code), word_sign(code, 1) as i64),
        Format::F31t => signed(high(code), 0, word_sign(code, 1)),
        Format::F31c => plain(high(code), word(code, 1), 0),
        Format::F35c => call(unit(code, 1), list(code)),
        Format::F3rc => call(unit(code, 1), range(code)),
        Format::F51l => constant(high(code), long(code, 1).cast_signed()),
    }
}
