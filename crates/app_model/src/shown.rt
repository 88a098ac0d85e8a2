//! Names as they are shown, written whole or read byte by byte: CLASS->NAME, where a byte from 21 to 7e that is no backslash
//! stands as it is, and any other as `\x` and two digits.
ghost use Rattle.std.specs.Prelude.{◌≡◌, ◌<◌, ◌++◌, List, ℕ, codes, slice_get, IfOk};
ghost use Rattle.app_model.specs.Shown.{field_of, hex_digit, is_graphic, lock_text, member_text, shown, shown_byte};
ghost use Rattle.app_model.specs.Sought.{found_in};

use crate::app::App;
use crate::rows::FieldRow;
use ns_base::LockNo;
use std::alloc::AllocError;

// Whether a byte is shown as it is.
fn is_graphic(byte: u8) -> bool
    ensures { result ≡ is_graphic byte }
{
    0x21 <= byte && byte <= 0x7e && byte != b'\\'
}

// A lower-case hexadecimal digit.
fn hex_digit(value: u8) -> u8
    requires { value < 16 }
    ensures { result ≡ hex_digit value }
{
    if value < 10 {
        b'0' + value
    } else {
        b'a' + (value - 10)
    }
}

/// Adds a name as it is shown.
pub fn push_shown(text: &mut Vec<u8>, name: &[u8]) -> Result<(), AllocError>
    ensures { IfOk result (λ _. text.new.items ≡ text.old.items ++ shown name.now) }
{
    for byte in name {
        push_shown_byte(text, *byte)?;
    }
    Ok(())
}

fn push_shown_byte(text: &mut Vec<u8>, byte: u8) -> Result<(), AllocError>
    ensures { IfOk result (λ _. text.new.items ≡ text.old.items ++ shown_byte byte) }
{
    if is_graphic(byte) {
        text.push(byte)?;
    } else {
        text.extend_from_slice(&[b'\\', b'x', hex_digit(byte / 16), hex_digit(byte % 16)])?;
    }
    Ok(())
}

/// Adds `CLASS->NAME`, shown.
pub fn push_member(text: &mut Vec<u8>, class: &[u8], name: &[u8]) -> Result<(), AllocError>
    ensures { IfOk result (λ _. text.new.items ≡ text.old.items ++ member_text class.now name.now) }
{
    push_shown(text, class)?;
    text.extend_from_slice(b"->")?;
    push_shown(text, name)?;
    Ok(())
}

/// A byte of a text that was sought by its place, or how far the place is past the text's end.
enum Sought {
    Found(u8),
    Past(usize),
}

fn byte_of(byte: u8, at: usize) -> Sought
    ensures { (more : List ℕ) → slice_get (shown_byte byte ++ more) at ≡ found_in result more }
{
    if is_graphic(byte) {
        return match at {
            0 => Sought::Found(byte),
            _ => Sought::Past(at - 1),
        };
    }
    match at {
        0 => Sought::Found(b'\\'),
        1 => Sought::Found(b'x'),
        2 => Sought::Found(hex_digit(byte / 16)),
        3 => Sought::Found(hex_digit(byte % 16)),
        _ => Sought::Past(at - 4),
    }
}

fn shown_at(name: &[u8], at: usize) -> Sought
    ensures { (more : List ℕ) → slice_get (shown name.now ++ more) at ≡ found_in result more }
{
    let mut left = at;
    for byte in name {
        match byte_of(*byte, left) {
            Sought::Found(shown) => return Sought::Found(shown),
            Sought::Past(past) => left = past,
        }
    }
    Sought::Past(left)
}

fn name_byte(name: &[u8], at: usize) -> Option<u8>
    ensures { result ≡ slice_get (shown name.now) at }
{
    match shown_at(name, at) {
        Sought::Found(byte) => Some(byte),
        Sought::Past(_) => None,
    }
}

fn arrow_byte(name: &[u8], at: usize) -> Option<u8>
    ensures { result ≡ slice_get (codes "->" ++ shown name.now) at }
{
    match at {
        0 => Some(b'-'),
        1 => Some(b'>'),
        _ => name_byte(name, at - 2),
    }
}

#[tactic(auto, using(crate::proofs::ShownBytes::parts))]
fn member_byte(class: &[u8], name: &[u8], at: usize) -> Option<u8>
    ensures { result ≡ slice_get (member_text class.now name.now) at }
{
    match shown_at(class, at) {
        Sought::Found(byte) => Some(byte),
        Sought::Past(past) => arrow_byte(name, past),
    }
}

impl App {
    /// The row of a lock field.
    pub fn lock_field(&self, lock: LockNo) -> Option<FieldRow>
        ensures { result ≡ field_of self.now (slice_get self.now.locks lock.0) }
    {
        let _ = &self.rows;
        let field = *self.locks().get(lock.0 as usize)?;
        if field.0 < self.field_count() {
            Some(*self.field(field))
        } else {
            None
        }
    }

    /// Adds the name of a lock field as it is shown, `CLASS->FIELD`.
    #[tactic(auto, unfolding(crate::specs::Shown::lock_text))]
    pub fn push_lock(&self, text: &mut Vec<u8>, lock: LockNo) -> Result<(), AllocError>
        ensures { IfOk result (λ _. text.new.items ≡ text.old.items ++ lock_text self.now lock.0) }
    {
        match self.lock_field(lock) {
            Some(field) => push_member(
                text,
                self.class_text(field.class),
                self.name_text(field.name),
            ),
            None => Ok(()),
        }
    }

    /// A byte of the name of a lock field as it is shown, `CLASS->FIELD`.
    #[tactic(auto, unfolding(crate::specs::Shown::lock_text))]
    pub fn lock_byte(&self, lock: LockNo, at: u32) -> Option<u8>
        ensures { result ≡ slice_get (lock_text self.now lock.0) at }
    {
        let field = self.lock_field(lock)?;
        member_byte(
            self.class_text(field.class),
            self.name_text(field.name),
            at as usize,
        )
    }
}
