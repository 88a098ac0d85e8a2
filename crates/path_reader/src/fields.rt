//! The fields of a line.
ghost use Rattle.std.specs.Prelude.{◌≡◌, ◌<◌, ◌^◌, ◌∷◌, [], codes, IfSome, IfNone, option_map, option_copied};
ghost use Rattle.cert_line.specs.Reading.{pieces, next_in, number_from, number_in, below_in, status_in, three, two};
ghost use Rattle.path_reader.specs.Reading.{colon_in, dash_in, end_in, four, left_by, row_in};

use cert_line::cut;

// The first field, and what is left behind it.
fn word(line: &[u8], at: u8) -> (&[u8], Option<&[u8]>)
    ensures { pieces at line.now ≡ result.0.now ∷ left_by at (option_copied result.1) }
{
    match cut(line, at) {
        None => (line, None),
        Some((word, rest)) => (word, Some(rest)),
    }
}

/// The next field of what is left, and what is left behind it.
pub fn next(rest: Option<&[u8]>, at: u8) -> Option<(&[u8], Option<&[u8]>)>
    ensures some { IfSome result (λ x. left_by at (option_copied rest.entry) ≡ x.0.now ∷ left_by at (option_copied x.1)) }
    ensures none { IfNone result (left_by at (option_copied rest.entry) ≡ []) }
{
    match rest {
        None => None,
        Some(line) => Some(word(line, at)),
    }
}

/// Two fields, and nothing behind them.
pub fn two_of(rest: Option<&[u8]>, at: u8) -> Option<(&[u8], &[u8])>
    ensures { option_map (λ x. (x.0.now, x.1.now)) result ≡ two (left_by at (option_copied rest.entry)) }
{
    let (a, rest) = next(rest, at)?;
    let (b, rest) = next(rest, at)?;
    match next(rest, at) {
        None => Some((a, b)),
        Some(_) => None,
    }
}

/// Three fields, and nothing behind them.
pub fn three_of(rest: Option<&[u8]>) -> Option<(&[u8], &[u8], &[u8])>
    ensures { option_map (λ x. (x.0.now, x.1.now, x.2.now)) result ≡ three (left_by 32 (option_copied rest.entry)) }
{
    let (a, rest) = next(rest, b' ')?;
    let (b, rest) = next(rest, b' ')?;
    let (c, rest) = next(rest, b' ')?;
    match next(rest, b' ') {
        None => Some((a, b, c)),
        Some(_) => None,
    }
}

/// Four fields, and nothing behind them.
pub fn four_of(rest: Option<&[u8]>) -> Option<(&[u8], &[u8], &[u8], &[u8])>
    ensures { option_map (λ x. (x.0.now, x.1.now, x.2.now, x.3.now)) result ≡ four (left_by 32 (option_copied rest.entry)) }
{
    let (a, rest) = next(rest, b' ')?;
    let (b, rest) = next(rest, b' ')?;
    let (c, rest) = next(rest, b' ')?;
    let (d, rest) = next(rest, b' ')?;
    match next(rest, b' ') {
        None => Some((a, b, c, d)),
        Some(_) => None,
    }
}

#[tactic(auto, unfolding(cert_line::specs::Reading::next_in))]
fn one_more(value: u64, digit: u8) -> Option<u64>
    ensures { result ≡ next_in value digit }
{
    if !digit.is_ascii_digit() {
        return None;
    }
    value.checked_mul(10)?.checked_add((digit - b'0') as u64)
}

#[tactic(auto, unfolding(cert_line::specs::Reading::number_from))]
fn digits(field: &[u8]) -> Option<u64>
    ensures { result ≡ number_from 0 field.now }
{
    let mut value: u64 = 0;
    for digit in field {
        value = one_more(value, *digit)?;
    }
    Some(value)
}

// The number that the whole field spells, with no sign and no leading zero.
#[tactic(auto, unfolding(cert_line::specs::Reading::number_in))]
fn number(field: &[u8]) -> Option<u64>
    ensures { result ≡ number_in field.now }
{
    match field {
        [] => None,
        [b'0', _, ..] => None,
        _ => digits(field),
    }
}

/// The number of a row.
#[tactic(auto, unfolding(cert_line::specs::Reading::below_in))]
pub fn row(field: &[u8]) -> Option<u32>
    ensures { result ≡ row_in field.now }
{
    let n = number(field)?;
    if n < 1 << 32 { Some(n as u32) } else { None }
}

/// A number that fits a byte.
#[tactic(auto, unfolding(cert_line::specs::Reading::below_in))]
pub fn small(field: &[u8]) -> Option<u8>
    ensures { result ≡ below_in 256 field.now }
{
    let n = number(field)?;
    if n < 256 { Some(n as u8) } else { None }
}

/// A number with a colon behind it.
#[tactic(auto, unfolding(crate::specs::Reading::colon_in))]
pub fn colon_row(field: &[u8]) -> Option<u32>
    ensures { result ≡ colon_in (pieces 58 field.now) }
{
    let (digits, rest) = two_of(Some(field), b':')?;
    if rest.is_empty() { row(digits) } else { None }
}

/// A number, or a dash for none.
#[tactic(auto, unfolding(crate::specs::Reading::dash_in))]
pub fn row_or_dash(field: &[u8]) -> Option<Option<u32>>
    ensures { result ≡ dash_in field.now }
{
    if field == b"-".as_slice() {
        Some(None)
    } else {
        row(field).map(Some)
    }
}

/// The status of a name.
#[tactic(auto, unfolding(cert_line::specs::Reading::status_in))]
pub fn status(field: &[u8]) -> Option<u8>
    ensures { result ≡ status_in field.now }
{
    match field {
        b"A" => Some(0),
        b"C0" => Some(1),
        b"C1" => Some(2),
        b"C2" => Some(3),
        b"CT" => Some(4),
        b"U0" => Some(5),
        b"U1" => Some(6),
        b"L" => Some(7),
        _ => None,
    }
}

/// Whether a body ends with a throw.
#[tactic(auto, unfolding(crate::specs::Reading::end_in))]
pub fn is_thrown(field: &[u8]) -> Option<bool>
    ensures { result ≡ end_in field.now }
{
    match field {
        b"ret" => Some(false),
        b"exc" => Some(true),
        _ => None,
    }
}
