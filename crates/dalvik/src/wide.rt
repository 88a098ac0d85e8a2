//! Which opcodes write or move a pair of registers.
ghost use Rattle.std.specs.Prelude.{◌≡◌};
ghost use Rattle.dalvik.specs.Registers as spec;

use crate::opcode;

// Whether the opcode is one of a run.
fn is_in(first: u8, last: u8, op: u8) -> bool
    ensures { result ≡ spec.is_between first last op }
{
    first <= op && op <= last
}

/// Whether a move copies a pair of registers.
pub fn is_wide_move(op: u8) -> bool
    ensures { result ≡ spec.is_wide_move op }
{
    is_in(opcode::MOVE_WIDE, opcode::MOVE_WIDE_16, op)
}

/// Whether a constant fills a pair of registers.
pub fn is_wide_const(op: u8) -> bool
    ensures { result ≡ spec.is_wide_const op }
{
    is_in(opcode::CONST_WIDE_16, opcode::CONST_WIDE_HIGH16, op)
}

/// Whether an operation on one register gives a pair.
pub fn is_wide_unary(op: u8) -> bool
    ensures { result ≡ spec.is_wide_unary op }
{
    is_in(opcode::NEG_LONG, opcode::NOT_LONG, op)
        || is_in(opcode::NEG_DOUBLE, opcode::INT_TO_LONG, op)
        || op == opcode::INT_TO_DOUBLE
        || op == opcode::LONG_TO_DOUBLE
        || is_in(opcode::FLOAT_TO_LONG, opcode::FLOAT_TO_DOUBLE, op)
        || op == opcode::DOUBLE_TO_LONG
}

/// Whether an operation on two registers gives a pair.
pub fn is_wide_binary(op: u8) -> bool
    ensures { result ≡ spec.is_wide_binary op }
{
    is_in(opcode::ADD_LONG, opcode::USHR_LONG, op)
        || is_in(opcode::ADD_DOUBLE, opcode::REM_DOUBLE, op)
        || is_in(opcode::ADD_LONG_2ADDR, opcode::USHR_LONG_2ADDR, op)
        || is_in(opcode::ADD_DOUBLE_2ADDR, opcode::REM_DOUBLE_2ADDR, op)
}
