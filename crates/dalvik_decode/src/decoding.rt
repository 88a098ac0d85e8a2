//! The instruction at a pc.
ghost use Rattle.std.specs.Prelude.{◌≡◌, ◌<◌, ◌≤◌, ◌^◌, length, IfOk};
ghost use Rattle.dalvik_decode.specs.Decoding.{decoded_at, has_too_many};

use crate::faults::CodeFault;
use crate::instructions::make_instruction;
use crate::operands::{fourth, read_operands};
use crate::table::{Format, find_row, unit_count};
use dalvik::Ins;

/// Whether the units name more arguments than the format has room for.
fn names_too_many(format: Format, code: &[u16]) -> bool
    requires { 0 < length code.now }
    ensures { result ≡ has_too_many format code.now }
{
    match format {
        Format::F35c => fourth(code) > 5,
        _ => false,
    }
}

/// The instruction at a pc, and the pc after it. `BadOpcode` comes before `Truncated`, and that
/// before `ArgCount`. A payload there is read as the `nop` that its first unit seems to be.
#[tactic(auto, unfolding(crate::specs::Decoding::decoded_at))]
pub fn decode_at(units: &[u16], pc: u32) -> Result<(Ins, u32), CodeFault>
    requires start { pc < length units.now }
    requires size { length units.now < 2 ^ 32 }
    ensures decoded { result ≡ decoded_at units.now pc }
    ensures next { IfOk result (λ found. (pc < found.1) × (found.1 ≤ length units.now)) }
{
    let (_, code) = units.split_at(pc as usize);
    let op = (code[0] % 256) as u8;
    let Some(row) = find_row(op) else {
        return Err(CodeFault::BadOpcode(pc, op))
    };
    let count = unit_count(row.format);
    if code.len() < count {
        return Err(CodeFault::Truncated(pc));
    }
    if names_too_many(row.format, code) {
        return Err(CodeFault::ArgCount(pc));
    }
    let operands = read_operands(row.format, code);
    Ok((make_instruction(row.kind, op, operands), pc + count as u32))
}
