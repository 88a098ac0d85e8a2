//! Fields of a line, each behind a space.
ghost use Rattle.std.specs.Prelude.{◌≡◌, ◌++◌, OnOk, decimal};
ghost use Rattle.path_text.specs.Lines as spec;
ghost use Rattle.path_text.specs.Lines.{body_field, cited, field, status_field};

use cert_line::name_of;
use itoa::Buffer;
use std::alloc::AllocError;

/// Adds a number in decimal.
pub fn put_decimal(out: &mut Vec<u8>, number: u64) -> Result<(), AllocError>
    ensures { OnOk result (out.new.items ≡ out.old.items ++ decimal number) }
{
    let mut buffer = Buffer::new();
    out.extend_from_slice(buffer.format(number).as_bytes())
}

/// Adds a number.
#[tactic(auto, unfolding(crate::specs::Lines::field))]
pub fn put_field(out: &mut Vec<u8>, number: u64) -> Result<(), AllocError>
    ensures { OnOk result (out.new.items ≡ out.old.items ++ field number) }
{
    out.push(b' ')?;
    put_decimal(out, number)
}

/// Adds a status by its name.
#[tactic(auto, unfolding(crate::specs::Lines::status_field))]
pub fn put_status(out: &mut Vec<u8>, status: u8) -> Result<(), AllocError>
    ensures { OnOk result (out.new.items ≡ out.old.items ++ status_field status) }
{
    out.push(b' ')?;
    out.extend_from_slice(name_of(status))
}

/// Adds the number of a body, or a dash where the callback is found outside.
pub fn put_body_field(out: &mut Vec<u8>, body: Option<u32>) -> Result<(), AllocError>
    ensures { OnOk result (out.new.items ≡ out.old.items ++ body_field body) }
{
    match body {
        Some(number) => put_field(out, number as u64),
        None => out.extend_from_slice(b" -"),
    }
}

/// Adds the number of the body that a step cites, behind a slash.
#[tactic(auto, unfolding(crate::specs::Lines::cited))]
pub fn put_cited(out: &mut Vec<u8>, cites: Option<u32>) -> Result<(), AllocError>
    ensures { OnOk result (out.new.items ≡ out.old.items ++ cited cites) }
{
    match cites {
        Some(number) => {
            out.push(b'/')?;
            put_decimal(out, number as u64)
        }
        None => Ok(()),
    }
}

/// Adds how a body ends.
pub fn put_end(out: &mut Vec<u8>, thrown: bool) -> Result<(), AllocError>
    ensures { OnOk result (out.new.items ≡ out.old.items ++ spec.end_field thrown) }
{
    if thrown {
        out.extend_from_slice(b" exc")
    } else {
        out.extend_from_slice(b" ret")
    }
}
