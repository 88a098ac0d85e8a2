//! Numbers in LEB128.
ghost use Rattle.std.specs.Prelude.{◌≡◌, ◌+◌, ◌%◌, ◌^◌, ◌<◌, ◌≤◌, length, IfOk};
ghost use Rattle.dex_bytes.specs.Leb128.{sign_weight, spelled_at, twos_complement, uleb_at, sleb_at};

use crate::fault::DexFault;

/// The unsigned number at `at`, and the place after it. Spellings that are longer than needed are accepted.
#[tactic(auto, unfolding(crate::specs::Leb128::uleb_at))]
pub fn uleb(bytes: &[u8], at: usize) -> Result<(u32, usize), DexFault>
    requires { at ≤ length bytes.now }
    ensures { result ≡ uleb_at bytes.now at }
{
    let (_, rest) = bytes.split_at(at);
    match rest {
        [a, ..] if *a < 0x80 => Ok((u32::from(*a), at + 1)),
        [a, b, ..] if *b < 0x80 => Ok((low(*a) + (low(*b) << 7), at + 2)),
        [a, b, c, ..] if *c < 0x80 => Ok((low(*a) + (low(*b) << 7) + (low(*c) << 14), at + 3)),
        [a, b, c, d, ..] if *d < 0x80 => {
            Ok((
                low(*a) + (low(*b) << 7) + (low(*c) << 14) + (low(*d) << 21),
                at + 4,
            ))
        }
        [a, b, c, d, e, ..] if *e < 0x10 => Ok((
            low(*a) + (low(*b) << 7) + (low(*c) << 14) + (low(*d) << 21) + (low(*e) << 28),
            at + 5,
        )),
        [_, _, _, _, _, ..] => Err(DexFault::Leb(at)),
        _ => Err(DexFault::Short(at)),
    }
}

/// The signed number at `at`, and the place after it. Spellings that are longer than needed are
/// accepted, and bits past the 32nd are dropped.
#[tactic(auto, unfolding(crate::specs::Leb128::sleb_at))]
pub fn sleb(bytes: &[u8], at: usize) -> Result<(i32, usize), DexFault>
    requires { at ≤ length bytes.now }
    ensures { result ≡ sleb_at bytes.now at }
{
    let (bits, count) = spelled(bytes, at)?;
    Ok((signed(bits, sign_weight_of(count)), at + count))
}

// What the groups of a signed number spell, without the sign, and how many they are.
#[tactic(auto, unfolding(crate::specs::Leb128::spelled_at))]
fn spelled(bytes: &[u8], at: usize) -> Result<(u64, usize), DexFault>
    requires { at ≤ length bytes.now }
    ensures value { result ≡ spelled_at bytes.now at }
    ensures count { IfOk result (λ x. (0 < x.1) × (x.1 ≤ 5) × (at + x.1 ≤ length bytes.now)) }
{
    let (_, rest) = bytes.split_at(at);
    match rest {
        [a, ..] if *a < 0x80 => Ok((group(*a), 1)),
        [a, b, ..] if *b < 0x80 => Ok((group(*a) + (group(*b) << 7), 2)),
        [a, b, c, ..] if *c < 0x80 => Ok((group(*a) + (group(*b) << 7) + (group(*c) << 14), 3)),
        [a, b, c, d, ..] if *d < 0x80 => Ok((
            group(*a) + (group(*b) << 7) + (group(*c) << 14) + (group(*d) << 21),
            4,
        )),
        [a, b, c, d, e, ..] if *e < 0x80 => Ok((
            group(*a)
                + (group(*b) << 7)
                + (group(*c) << 14)
                + (group(*d) << 21)
                + (group(*e) << 28),
            5,
        )),
        [_, _, _, _, _, ..] => Err(DexFault::Leb(at)),
        _ => Err(DexFault::Short(at)),
    }
}

// The weight of the highest bit of so many groups, or of 32 bits.
fn sign_weight_of(count: usize) -> u64
    requires { (0 < count) × (count ≤ 5) }
    ensures value { result ≡ sign_weight count }
    ensures bound { (0 < result) × (result ≤ 2 ^ 31) }
{
    match count {
        1 => 1 << 6,
        2 => 1 << 13,
        3 => 1 << 20,
        4 => 1 << 27,
        _ => 1 << 31,
    }
}

// The lowest bits in two's complement, where the highest of them has the weight `half`.
fn signed(bits: u64, half: u64) -> i32
    requires { (0 < half) × (half ≤ 2 ^ 31) }
    ensures { result ≡ twos_complement half bits }
{
    let low = bits % (2 * half);
    if low < half {
        low as i32
    } else {
        (low as i64 - (2 * half) as i64) as i32
    }
}

// The seven bits of a group, wide enough to add up five.
fn group(byte: u8) -> u64
    ensures value { result ≡ byte % 128 }
    ensures bound { result < 128 }
{
    u64::from(low(byte))
}

// The seven bits of a group.
fn low(byte: u8) -> u32
    ensures value { result ≡ byte % 128 }
    ensures bound { result < 128 }
{
    u32::from(byte % 128)
}
