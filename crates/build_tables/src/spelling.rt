//! How texts and prototypes are spelled.
ghost use Rattle.std.specs.Prelude.{◌≡◌, ◌++◌, ◌≤◌, ◌<◌, ℕ, List, map, drop, length, string_bytes, IfOk};
ghost use Rattle.build_tables.specs.Spelling.{unit_bytes, past_first_plane, surrogate_bytes, kept_byte, mutf8_of, trails_after, initial_of, shorty_of};

use std::alloc::{AllocError, Global};

// A UTF-16 unit in three bytes.
fn push_unit(out: &mut Vec<u8>, unit: u32) -> Result<(), AllocError>
    ensures { IfOk result (λ _. out.new.items ≡ out.old.items ++ unit_bytes unit) }
{
    out.push((224 + unit / 4096 % 16) as u8)?;
    out.push((128 + unit / 64 % 64) as u8)?;
    out.push((128 + unit % 64) as u8)?;
    Ok(())
}

// A character past U+FFFF, of these four bytes, as its two surrogates.
fn push_pair(out: &mut Vec<u8>, a: u8, b: u8, c: u8, d: u8) -> Result<(), AllocError>
    ensures { IfOk result (λ _. out.new.items ≡ out.old.items ++ surrogate_bytes (past_first_plane a b c d)) }
{
    let high = u32::from(a % 8) * 64 + u32::from(b % 64);
    let low = u32::from(c % 64) * 64 + u32::from(d % 64);
    let rest = (high * 4096 + low).saturating_sub(65536);
    push_unit(out, 55296 + rest / 1024)?;
    push_unit(out, 56320 + rest % 1024)?;
    Ok(())
}

// A byte of a character of at most three.
fn push_byte(out: &mut Vec<u8>, b: u8) -> Result<(), AllocError>
    ensures { IfOk result (λ _. out.new.items ≡ out.old.items ++ kept_byte b) }
{
    if b == 0 {
        out.push(192)?;
        out.push(128)?;
        return Ok(());
    }
    out.push(b)?;
    Ok(())
}

// Spells the character or byte at the front, and gives how many bytes it has; 0 where none is there.
#[tactic(auto, unfolding(crate::specs::Spelling::mutf8_of))]
fn push_front(out: &mut Vec<u8>, text: &[u8]) -> Result<usize, AllocError>
    ensures within { IfOk result (λ n. n ≤ length text.now) }
    ensures more { IfOk result (λ n. 0 < length text.now → 0 < n) }
    ensures spelled { IfOk result (λ n. out.new.items ++ mutf8_of (drop n text.now) ≡ out.old.items ++ mutf8_of text.now) }
{
    match text {
        [a, b, c, d, ..] if *a >= 240 => {
            push_pair(out, *a, *b, *c, *d)?;
            Ok(4)
        }
        [a, ..] => {
            push_byte(out, *a)?;
            Ok(1)
        }
        [] => Ok(0),
    }
}

/// The MUTF-8 bytes of a text.
#[tactic(auto, unfolding(crate::specs::Spelling::mutf8_of))]
pub fn mutf8_from(alloc: Global, text: &[u8]) -> Result<Vec<u8>, AllocError>
    ensures { IfOk result (λ bytes. bytes.items ≡ mutf8_of text.now) }
{
    let mut out = Vec::with_capacity(alloc, text.len())?;
    let mut rest = text;
    while !rest.is_empty() {
        let taken = push_front(&mut out, rest)?;
        rest = rest.split_at(taken).1;
    }
    Ok(out)
}

// How many bytes go on the character that this byte begins.
fn trail_count(b: u8) -> usize
    ensures { result ≡ trails_after b }
{
    if b < 192 {
        0
    } else if b < 224 {
        1
    } else if b < 240 {
        2
    } else {
        3
    }
}

// The first character of a descriptor, with `L` for `[`.
fn push_initial(out: &mut Vec<u8>, name: &[u8]) -> Result<(), AllocError>
    ensures { IfOk result (λ _. out.new.items ≡ out.old.items ++ initial_of name.now) }
{
    match name {
        [91, ..] => out.push(76)?,
        [a, more @ ..] => {
            out.push(*a)?;
            let (trail, _) = more.split_at(trail_count(*a).min(more.len()));
            out.extend_from_slice(trail)?;
        }
        [] => {}
    }
    Ok(())
}

/// The shorty of a prototype.
pub fn shorty_from(alloc: Global, gives: &str, params: &[String]) -> Result<Vec<u8>, AllocError>
    ensures { IfOk result (λ bytes. bytes.items ≡ shorty_of gives.now (map string_bytes params.now)) }
{
    let mut out = Vec::with_capacity(alloc, params.len())?;
    push_initial(&mut out, gives.as_bytes())?;
    for param in params {
        push_initial(&mut out, param.as_bytes())?;
    }
    Ok(out)
}
