//! The registers that an instruction names.
ghost use Rattle.std.specs.Prelude.{◌≡◌, ◌∷◌, ◌++◌, [], length, take, Bool};
ghost use Rattle.std.specs.List.{range_with_len};
ghost use Rattle.dalvik.specs.Registers.{args_of, pair_if, registers_of};
ghost use Rattle.method_graph.specs.Registers.{first_past};

use dalvik::{Args, Ins, is_wide_binary, is_wide_const, is_wide_move, is_wide_unary, opcode};

/// The register, where the method has not so many.
fn past_one(count: u16, register: u32) -> Option<u32>
    ensures { result ≡ first_past count (register ∷ []) }
{
    if register < count as u32 {
        None
    } else {
        Some(register)
    }
}

/// The first past the end of a register and, for a pair, the next.
fn past_pair(count: u16, wide: bool, register: u32) -> Option<u32>
    ensures { result ≡ first_past count (pair_if wide register) }
{
    if register >= count as u32 {
        Some(register)
    } else if wide && register + 1 >= count as u32 {
        Some(register + 1)
    } else {
        None
    }
}

fn past_two(count: u16, wide: bool, to: u32, from: u32) -> Option<u32>
    ensures { result ≡ first_past count (pair_if wide to ++ from ∷ []) }
{
    match past_pair(count, wide, to) {
        Some(register) => Some(register),
        None => past_one(count, from),
    }
}

fn past_three(count: u16, wide: bool, to: u32, left: u32, right: u32) -> Option<u32>
    ensures { result ≡ first_past count (pair_if wide to ++ left ∷ right ∷ []) }
{
    match past_pair(count, wide, to) {
        Some(register) => Some(register),
        None => past_two(count, false, left, right),
    }
}

fn past_pairs(count: u16, wide: bool, to: u32, from: u32) -> Option<u32>
    ensures { result ≡ first_past count (pair_if wide to ++ pair_if wide from) }
{
    match past_pair(count, wide, to) {
        Some(register) => Some(register),
        None => past_pair(count, wide, from),
    }
}

/// The first past the end of so many registers in a row.
fn past_range(count: u16, first: u32, len: u32) -> Option<u32>
    ensures { result ≡ first_past count (range_with_len first len) }
{
    if len == 0 {
        None
    } else if first >= count as u32 {
        Some(first)
    } else if len > count as u32 - first {
        Some(count as u32)
    } else {
        None
    }
}

fn past_list(count: u16, registers: &[u32]) -> Option<u32>
    ensures { result ≡ first_past count registers.now }
{
    registers.iter().copied().find(|r| *r >= count as u32)
}

fn past_args(count: u16, args: Args) -> Option<u32>
    ensures { result ≡ first_past count (args_of args) }
{
    match args {
        Args::List {
            count: len,
            registers,
        } => past_list(count, &registers[..(len as usize).min(5)]),
        Args::Range { first, count: len } => past_range(count, first, len),
    }
}

/// The first register past the end that an instruction names.
#[tactic(auto, unfolding(dalvik::specs::Registers::registers_of))]
pub fn past_named(count: u16, ins: Ins) -> Option<u32>
    ensures { result ≡ first_past count (registers_of ins) }
{
    match ins {
        Ins::Nop | Ins::ReturnVoid | Ins::Goto { .. } => None,
        Ins::Move { op, to, from } => past_pairs(count, is_wide_move(op), to, from),
        Ins::MoveResult { op, to } => past_pair(count, op == opcode::MOVE_RESULT_WIDE, to),
        Ins::Const { op, to, .. } => past_pair(count, is_wide_const(op), to),
        Ins::MoveException { to }
        | Ins::ConstString { to, .. }
        | Ins::ConstClass { to, .. }
        | Ins::NewInstance { to, .. } => past_one(count, to),
        Ins::Return { from, .. } => past_one(count, from),
        Ins::Monitor { object, .. } | Ins::CheckCast { object, .. } | Ins::Throw { object } => {
            past_one(count, object)
        }
        Ins::FillArrayData { array, .. } => past_one(count, array),
        Ins::Switch { value, .. } | Ins::IfZero { value, .. } | Ins::StaticPut { value, .. } => {
            past_one(count, value)
        }
        Ins::StaticGet { op, to, .. } => past_pair(count, op == opcode::SGET_WIDE, to),
        Ins::InstanceOf { to, object, .. } => past_two(count, false, to, object),
        Ins::ArrayLength { to, array } => past_two(count, false, to, array),
        Ins::NewArray { to, size, .. } => past_two(count, false, to, size),
        Ins::IfPair { left, right, .. } => past_two(count, false, left, right),
        Ins::FieldGet { op, to, object, .. } => past_two(
            count,
            op == opcode::IGET_WIDE,
            to,
            object,
        ),
        Ins::FieldPut { value, object, .. } => past_two(count, false, value, object),
        Ins::Unary { op, to, from } => past_two(count, is_wide_unary(op), to, from),
        Ins::BinaryLiteral { to, from, .. } => past_two(count, false, to, from),
        Ins::Compare {
            to,
            left,
            right,
            ..
        } => past_three(count, false, to, left, right),
        Ins::ArrayGet {
            op,
            to,
            array,
            index,
        } => { past_three(count, op == opcode::AGET_WIDE, to, array, index) }
        Ins::ArrayPut {
            value,
            array,
            index,
            ..
        } => past_three(count, false, value, array, index),
        Ins::Binary {
            op,
            to,
            left,
            right,
        } => past_three(count, is_wide_binary(op), to, left, right),
        Ins::FilledNewArray { args, .. } | Ins::Invoke { args, .. } => past_args(count, args),
    }
}
