//! The instruction of each kind.
ghost use Rattle.std.specs.Prelude.{◌≡◌};
ghost use Rattle.dalvik_decode.specs.Instructions.{instruction_of};

use crate::operands::Operands;
use crate::table::Kind;
use dalvik::Ins;

/// The instruction of this kind with this opcode and these operands.
#[inline]
pub fn make_instruction(kind: Kind, op: u8, operands: Operands) -> Ins
    ensures { result ≡ instruction_of kind op operands }
{
    let Operands {
        a,
        b,
        c,
        literal,
        signed,
        args,
    } = operands;
    match kind {
        Kind::Nop => Ins::Nop,
        Kind::Move => Ins::Move { op, to: a, from: b },
        Kind::MoveResult => Ins::MoveResult { op, to: a },
        Kind::MoveException => Ins::MoveException { to: a },
        Kind::ReturnVoid => Ins::ReturnVoid,
        Kind::Return => Ins::Return { op, from: a },
        Kind::Const => Ins::Const {
            op,
            to: a,
            value: literal,
        },
        Kind::ConstString => Ins::ConstString {
            op,
            to: a,
            string: b,
        },
        Kind::ConstClass => Ins::ConstClass { to: a, kind: b },
        Kind::Monitor => Ins::Monitor { op, object: a },
        Kind::CheckCast => Ins::CheckCast { object: a, kind: b },
        Kind::InstanceOf => Ins::InstanceOf {
            to: a,
            object: b,
            kind: c,
        },
        Kind::ArrayLength => Ins::ArrayLength { to: a, array: b },
        Kind::NewInstance => Ins::NewInstance { to: a, kind: b },
        Kind::NewArray => Ins::NewArray {
            to: a,
            size: b,
            kind: c,
        },
        Kind::FilledNewArray => Ins::FilledNewArray { op, kind: b, args },
        Kind::FillArrayData => Ins::FillArrayData {
            array: a,
            offset: signed,
        },
        Kind::Throw => Ins::Throw { object: a },
        Kind::Goto => Ins::Goto { op, offset: signed },
        Kind::Switch => Ins::Switch {
            op,
            value: a,
            offset: signed,
        },
        Kind::Compare => Ins::Compare {
            op,
            to: a,
            left: b,
            right: c,
        },
        Kind::IfPair => Ins::IfPair {
            op,
            left: a,
            right: b,
            offset: signed,
        },
        Kind::IfZero => Ins::IfZero {
            op,
            value: a,
            offset: signed,
        },
        Kind::ArrayGet => Ins::ArrayGet {
            op,
            to: a,
            array: b,
            index: c,
        },
        Kind::ArrayPut => Ins::ArrayPut {
            op,
            value: a,
            array: b,
            index: c,
        },
        Kind::FieldGet => Ins::FieldGet {
            op,
            to: a,
            object: b,
            field: c,
        },
        Kind::FieldPut => Ins::FieldPut {
            op,
            value: a,
            object: b,
            field: c,
        },
        Kind::StaticGet => Ins::StaticGet {
            op,
            to: a,
            field: b,
        },
        Kind::StaticPut => Ins::StaticPut {
            op,
            value: a,
            field: b,
        },
        Kind::Invoke => Ins::Invoke {
            op,
            method: b,
            args,
        },
        Kind::Unary => Ins::Unary { op, to: a, from: b },
        Kind::Binary => Ins::Binary {
            op,
            to: a,
            left: b,
            right: c,
        },
        Kind::BinaryOnto => Ins::Binary {
            op,
            to: a,
            left: a,
            right: b,
        },
        Kind::BinaryLiteral => Ins::BinaryLiteral {
            op,
            to: a,
            from: b,
            value: signed,
        },
    }
}
