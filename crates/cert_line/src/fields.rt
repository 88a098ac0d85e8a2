//! The fields of a line.
ghost use Rattle.std.specs.Prelude.{◌≡◌, ◌<◌, ◌^◌, ◌∷◌, ◌==◌, ◌&&◌, [], length, nat_lt, IfSome, IfNone, IfOk, option_map, position};
ghost use Rattle.std.specs.List.{list_any, list_all};
ghost use Rattle.cert_line.specs.Lines.{is_shown};
ghost use Rattle.cert_line.specs.Reading.{pieces, next_in, number_from, number_in, below_in, digit_in, mask_in, masks_in, byte_in, status_in};

use std::alloc::{AllocError, Global};

fn first(bytes: &[u8], at: u8) -> Option<usize>
    ensures value { result ≡ position (λ b. b == at) bytes.now }
    ensures within { IfSome result (λ i. i < length bytes.now) }
{
    bytes.iter().position(|b| *b == at)
}

/// What stands before the first byte `at`, and what stands behind it.
pub fn cut(bytes: &[u8], at: u8) -> Option<(&[u8], &[u8])>
    ensures some { IfSome result (λ x. pieces at bytes.now ≡ x.0.now ∷ pieces at x.1.now) }
    ensures none { IfNone result (pieces at bytes.now ≡ bytes.now ∷ []) }
    ensures shorter { IfSome result (λ x. length x.1.now < length bytes.now) }
{
    match first(bytes, at) {
        None => None,
        Some(i) => {
            let (front, rest) = bytes.split_at(i);
            Some((front, rest.split_at(1).1))
        }
    }
}

#[tactic(auto, unfolding(crate::specs::Reading::next_in))]
fn next(value: u64, digit: u8) -> Option<u64>
    ensures { result ≡ next_in value digit }
{
    if !digit.is_ascii_digit() {
        return None;
    }
    value.checked_mul(10)?.checked_add((digit - b'0') as u64)
}

#[tactic(auto, unfolding(crate::specs::Reading::number_from))]
fn digits(field: &[u8]) -> Option<u64>
    ensures { result ≡ number_from 0 field.now }
{
    let mut value: u64 = 0;
    for digit in field {
        value = next(value, *digit)?;
    }
    Some(value)
}

/// The number that the whole field spells, with no sign and no leading zero.
#[tactic(auto, unfolding(crate::specs::Reading::number_in))]
pub fn number(field: &[u8]) -> Option<u64>
    ensures { result ≡ number_in field.now }
{
    match field {
        [] => None,
        [b'0', _, ..] => None,
        _ => digits(field),
    }
}

/// A number of a row of the application.
#[tactic(auto, unfolding(crate::specs::Reading::below_in))]
pub fn row_number(field: &[u8]) -> Option<u32>
    ensures { result ≡ below_in (2 ^ 32) field.now }
{
    let n = number(field)?;
    if n < 1 << 32 { Some(n as u32) } else { None }
}

/// A number that fits a byte.
#[tactic(auto, unfolding(crate::specs::Reading::below_in))]
pub fn small_number(field: &[u8]) -> Option<u8>
    ensures { result ≡ below_in 256 field.now }
{
    let n = number(field)?;
    if n < 256 { Some(n as u8) } else { None }
}

#[tactic(auto, unfolding(crate::specs::Reading::digit_in))]
fn digit(c: u8) -> Option<u8>
    ensures value { result ≡ digit_in c }
    ensures low { IfSome result (λ n. n < 16) }
{
    match c {
        b'0'..=b'9' => Some(c - 48),
        b'a'..=b'f' => Some(c - 87),
        _ => None,
    }
}

#[tactic(auto, unfolding(crate::specs::Reading::mask_in))]
fn pair(a: u8, b: u8) -> Option<u8>
    ensures { result ≡ mask_in a b }
{
    let high = digit(a)?;
    let low = digit(b)?;
    Some(16 * high + low)
}

/// A byte as two lower-case hexadecimal digits.
#[tactic(auto, unfolding(crate::specs::Reading::byte_in))]
pub fn mask(field: &[u8]) -> Option<u8>
    ensures { result ≡ byte_in field.now }
{
    match field {
        [a, b] => pair(*a, *b),
        _ => None,
    }
}

/// The bytes that pairs of lower-case hexadecimal digits spell, if they do.
#[tactic(auto, unfolding(crate::specs::Reading::masks_in))]
pub fn masks(alloc: Global, field: &[u8]) -> Result<Option<Vec<u8>>, AllocError>
    ensures { IfOk result (λ o. option_map (λ v. v.items) o ≡ masks_in field.now) }
{
    let mut masks = Vec::with_capacity(alloc, field.len() / 2)?;
    let mut rest = field;
    while let [a, b, more @ ..] = rest {
        let Some(mask) = pair(*a, *b) else {
            return Ok(None);
        };
        masks.push(mask)?;
        rest = more;
    }
    if rest.is_empty() {
        Ok(Some(masks))
    } else {
        Ok(None)
    }
}

/// The status of a name.
#[tactic(auto, unfolding(crate::specs::Reading::status_in))]
pub fn status(field: &[u8]) -> Option<u8>
    ensures { result ≡ status_in field.now }
{
    match field {
        b"A" => Some(0),
        b"C0" => Some(1),
        b"C1" => Some(2),
        b"C2" => Some(3),
        b"CT" => Some(4),
        b"U0" => Some(5),
        b"U1" => Some(6),
        b"L" => Some(7),
        _ => None,
    }
}

fn all_shown(name: &[u8]) -> bool
    ensures { result ≡ list_all (λ b. nat_lt 32 b && nat_lt b 127) name.now }
{
    name.iter().all(|b| *b > 32 && *b < 127)
}

/// Whether a name can be shown: some bytes, none of them a space or beyond the plain ones.
pub fn can_be_shown(name: &[u8]) -> bool
    ensures { result ≡ is_shown name.now }
{
    !name.is_empty() && all_shown(name)
}

/// Whether some mask has a status.
pub fn any_status(masks: &[u8]) -> bool
    ensures { result ≡ list_any (λ m. nat_lt 0 m) masks.now }
{
    masks.iter().any(|m| *m > 0)
}
