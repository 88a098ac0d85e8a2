//! What an instruction does.
ghost use Rattle.std.specs.Prelude.{◌≡◌, ◌<◌, ◌==◌, length, Some, option_map, if◌then◌else◌};
ghost use Rattle.ns_base.specs.declared.rows.LockNo.{LockNo};
ghost use Rattle.dalvik.specs.Descriptors.{is_reference};
ghost use Rattle.dalvik.specs.declared.opcode.TheConstants.{MOVE_RESULT_WIDE, RETURN_WIDE, MONITOR_ENTER};
ghost use Rattle.dalvik.specs.Registers as registers;
ghost use Rattle.app_model.specs.Slots.{slot_at};
ghost use Rattle.app_model.specs.LockUse.{lock_use_at};
ghost use Rattle.app_model.specs.Words.{code_len, named_at};
ghost use Rattle.app_model.specs.Targets.{call_by};
ghost use Rattle.act_model.specs.Acts as spec;

use app_model::{App, By, LockUse, Named, call_by};
use dalvik::{Args, Ins, is_wide_binary, is_wide_const, is_wide_move, is_wide_unary, opcode};
use ns_base::{LockNo, MethodNo, TypeNo};

/// Where an instruction throws.
#[derive(Clone, Copy)]
pub enum Throws {
    Never,
    /// On some runs, whatever its registers hold.
    ByChoice,
    /// Exactly where this register is null.
    WhereZero(u32),
}

/// What an instruction writes, as far as the machine follows values.
#[derive(Clone, Copy)]
pub enum Written {
    Zero,
    Nonzero,
    /// Zero or another number.
    Number,
    /// Null or an object.
    Reference,
    FreeObject,
    /// Two registers, each zero or another number.
    Pair,
    /// A string.
    Text,
    /// The class object of a type.
    ClassObject,
    /// An object of this type.
    Typed(TypeNo),
}

/// What a return answers.
#[derive(Clone, Copy)]
pub enum Returned {
    Nothing,
    /// A pair of registers.
    Wide,
    Register(u32),
}

/// What a lock call does to its receiver.
#[derive(Clone, Copy)]
pub enum LockOp {
    /// `acquire`
    Acquire,
    /// `release`
    Release,
    /// `isHeld`
    IsHeld,
    /// `setReferenceCounted`
    Mode,
}

/// What a call gives, by the result type of its prototype.
#[derive(Clone, Copy)]
pub enum Gives {
    Nothing,
    Number,
    Object,
}

/// What an instruction does, as the rules and the machine tell instructions apart. `to`, `from`, `value`
/// and `object` are registers.
#[derive(Clone, Copy)]
pub enum Act {
    /// Goes on by any of its successors.
    Go,
    /// Takes successor number `zero` where the value is zero or null, and the other one where it is not.
    Test {
        value: u32,
        zero: u32,
    },
    /// Copies a register, or a pair: both are read before either is written.
    Copy {
        to: u32,
        from: u32,
        wide: bool,
    },
    /// Takes the result of the call or filled array before it.
    TakeResult {
        to: u32,
    },
    Write {
        to: u32,
        written: Written,
        throws: Throws,
    },
    /// Makes an array of its arguments, in the result cell.
    Fill {
        args: Args,
        kind: TypeNo,
    },
    /// Reads a lock field.
    ReadSlot {
        to: u32,
        slot: LockNo,
        throws: Throws,
    },
    /// Writes a lock field.
    WriteSlot {
        from: u32,
        slot: LockNo,
        throws: Throws,
    },
    /// Gives a value to another field or an array, where a lock is not followed.
    Give {
        from: u32,
        throws: Throws,
    },
    /// Only throws, or not.
    Check {
        throws: Throws,
    },
    Throw {
        object: u32,
    },
    Return {
        returned: Returned,
    },
    Call {
        by: By,
        usage: LockUse,
        args: Args,
        gives: Gives,
    },
}

/// What an instruction does. `index` counts the instructions of the method.
#[tactic(auto, unfolding(crate::specs::Acts::act_at))]
pub fn act_of(app: &App, method: MethodNo, index: u32) -> Act
    requires method { method.0 < length app.now.methods }
    requires index { index < code_len app.now method.0 }
    ensures { spec.act_at app.now method.0 index ≡ Some result }
{
    let (_, ins) = app.ins(method, index);
    act_of_ins(app, method, index, ins)
}

// The same of the instruction that stands there.
fn act_of_ins(app: &App, method: MethodNo, index: u32, ins: Ins) -> Act
    requires method { method.0 < length app.now.methods }
    requires index { index < code_len app.now method.0 }
    ensures { result ≡ spec.act_of app.now method.0 index ins }
{
    match ins {
        Ins::Nop | Ins::Goto { .. } | Ins::Switch { .. } | Ins::IfPair { .. } => Act::Go,
        Ins::Move { op, to, from } => copy(op, to, from),
        Ins::MoveResult { op, to } => take_result(op, to),
        Ins::MoveException { to } => write(to, Written::FreeObject, Throws::Never),
        Ins::ReturnVoid => answer(Returned::Nothing),
        Ins::Return { op, from } => answer(return_of(op, from)),
        Ins::Const { op, to, value } => write(to, constant(op, value), Throws::Never),
        Ins::ConstString { to, .. } => write(to, Written::Text, Throws::Never),
        Ins::ConstClass { to, .. } => write(to, Written::ClassObject, Throws::Never),
        Ins::Monitor { op, object } => monitor(op, object),
        Ins::CheckCast { .. } | Ins::FillArrayData { .. } => check(Throws::ByChoice),
        Ins::InstanceOf { to, .. } => write(to, Written::Number, Throws::Never),
        Ins::ArrayLength { to, .. } => write(to, Written::Number, Throws::ByChoice),
        Ins::NewInstance { to, kind } => write(to, typed(kind), Throws::Never),
        Ins::NewArray { to, kind, .. } => write(to, typed(kind), Throws::ByChoice),
        Ins::FilledNewArray { kind, args, .. } => fill(args, kind),
        Ins::Throw { object } => Act::Throw { object },
        Ins::Compare { to, .. } => write(to, Written::Number, Throws::Never),
        Ins::IfZero { op, value, .. } => test(op, value),
        Ins::ArrayGet { op, to, .. } => write(to, read(op), Throws::ByChoice),
        Ins::ArrayPut { value, .. } => write_act(value, None, Throws::ByChoice),
        Ins::FieldGet { op, to, object, .. } => {
            read_act(to, app.slot(method, index), op, Throws::WhereZero(object))
        }
        Ins::FieldPut { value, object, .. } => {
            write_act(value, app.slot(method, index), Throws::WhereZero(object))
        }
        Ins::StaticGet { op, to, .. } => read_act(to, app.slot(method, index), op, Throws::Never),
        Ins::StaticPut { value, .. } => write_act(value, app.slot(method, index), Throws::Never),
        Ins::Invoke { op, args, .. } => call(app, method, index, op, args),
        Ins::Unary { op, to, .. } => write(to, number(is_wide_unary(op)), Throws::Never),
        Ins::Binary { op, to, .. } => {
            write(to, number(is_wide_binary(op)), if_divides(is_division(op)))
        }
        Ins::BinaryLiteral { op, to, value, .. } => {
            write(to, Written::Number, literal_throws(op, value))
        }
    }
}

// ---- the kinds

fn write(to: u32, written: Written, throws: Throws) -> Act
    ensures { result ≡ Act.Write to written throws }
{
    Act::Write {
        to,
        written,
        throws,
    }
}

fn check(throws: Throws) -> Act
    ensures { result ≡ Act.Check throws }
{
    Act::Check { throws }
}

fn answer(returned: Returned) -> Act
    ensures { result ≡ Act.Return returned }
{
    Act::Return { returned }
}

fn fill(args: Args, kind: u32) -> Act
    ensures { result ≡ Act.Fill args (record { 0 = kind }) }
{
    Act::Fill {
        args,
        kind: TypeNo(kind),
    }
}

fn typed(kind: u32) -> Written
    ensures { result ≡ Written.Typed (record { 0 = kind }) }
{
    Written::Typed(TypeNo(kind))
}

fn copy(op: u8, to: u32, from: u32) -> Act
    ensures { result ≡ Act.Copy to from (registers.is_wide_move op) }
{
    Act::Copy {
        to,
        from,
        wide: is_wide_move(op),
    }
}

fn take_result(op: u8, to: u32) -> Act
    ensures { result ≡ (if op == MOVE_RESULT_WIDE then Act.Write to Written.Pair Throws.Never else Act.TakeResult to) }
{
    if op == opcode::MOVE_RESULT_WIDE {
        write(to, Written::Pair, Throws::Never)
    } else {
        Act::TakeResult { to }
    }
}

fn return_of(op: u8, from: u32) -> Returned
    ensures { result ≡ (if op == RETURN_WIDE then Returned.Wide else Returned.Register from) }
{
    if op == opcode::RETURN_WIDE {
        Returned::Wide
    } else {
        Returned::Register(from)
    }
}

fn monitor(op: u8, object: u32) -> Act
    ensures { result ≡ (if op == MONITOR_ENTER then Act.Check (Throws.WhereZero object) else Act.Go) }
{
    if op == opcode::MONITOR_ENTER {
        check(Throws::WhereZero(object))
    } else {
        Act::Go
    }
}

fn test(op: u8, value: u32) -> Act
    ensures { result ≡ spec.test_of op value }
{
    match op {
        opcode::IF_EQZ => Act::Test { value, zero: 1 },
        opcode::IF_NEZ => Act::Test { value, zero: 0 },
        _ => Act::Go,
    }
}

// ---- what is written

fn number(wide: bool) -> Written
    ensures { result ≡ spec.number_of wide }
{
    if wide { Written::Pair } else { Written::Number }
}

fn constant(op: u8, value: i64) -> Written
    ensures { result ≡ spec.constant_of op value }
{
    if is_wide_const(op) {
        Written::Pair
    } else if value == 0 {
        Written::Zero
    } else {
        Written::Nonzero
    }
}

// What a read of an array or a field gives.
fn read(op: u8) -> Written
    ensures { result ≡ spec.read_of op }
{
    match op {
        opcode::AGET_OBJECT | opcode::IGET_OBJECT | opcode::SGET_OBJECT => Written::Reference,
        opcode::AGET_WIDE | opcode::IGET_WIDE | opcode::SGET_WIDE => Written::Pair,
        _ => Written::Number,
    }
}

// ---- divisions

fn if_divides(divides: bool) -> Throws
    ensures { result ≡ spec.if_divides divides }
{
    if divides {
        Throws::ByChoice
    } else {
        Throws::Never
    }
}

fn is_division(op: u8) -> bool
    ensures { result ≡ spec.is_division op }
{
    matches!(
        op,
        opcode::DIV_INT
            | opcode::REM_INT
            | opcode::DIV_LONG
            | opcode::REM_LONG
            | opcode::DIV_INT_2ADDR
            | opcode::REM_INT_2ADDR
            | opcode::DIV_LONG_2ADDR
            | opcode::REM_LONG_2ADDR
    )
}

// Division by a literal throws by choice where the literal is 0.
fn literal_throws(op: u8, value: i32) -> Throws
    ensures { result ≡ spec.literal_throws op value }
{
    if_divides(
        value == 0
            && matches!(
                op,
                opcode::DIV_INT_LIT16
                    | opcode::REM_INT_LIT16
                    | opcode::DIV_INT_LIT8
                    | opcode::REM_INT_LIT8
            ),
    )
}

// ---- fields

fn read_act(to: u32, slot: Option<LockNo>, op: u8, throws: Throws) -> Act
    ensures { result ≡ spec.read_act to (option_map (λ (l : LockNo). l.0) slot) op throws }
{
    match slot {
        Some(slot) => Act::ReadSlot { to, slot, throws },
        None => write(to, read(op), throws),
    }
}

fn write_act(from: u32, slot: Option<LockNo>, throws: Throws) -> Act
    ensures { result ≡ spec.write_act from (option_map (λ (l : LockNo). l.0) slot) throws }
{
    match slot {
        Some(slot) => Act::WriteSlot { from, slot, throws },
        None => Act::Give { from, throws },
    }
}

// ---- calls

/// What a call does as a lock call; None where it is none.
pub fn op_of(usage: LockUse) -> Option<LockOp>
    ensures { result ≡ spec.op_of usage }
{
    match usage {
        LockUse::Acquire => Some(LockOp::Acquire),
        LockUse::Release => Some(LockOp::Release),
        LockUse::IsHeld => Some(LockOp::IsHeld),
        LockUse::Mode => Some(LockOp::Mode),
        LockUse::Plain | LockUse::Make | LockUse::Wrong => None,
    }
}

fn call(app: &App, method: MethodNo, index: u32, op: u8, args: Args) -> Act
    requires method { method.0 < length app.now.methods }
    requires index { index < code_len app.now method.0 }
    ensures { result ≡ Act.Call (call_by op) (lock_use_at app.now method.0 index) args (spec.call_gives app.now (named_at app.now method.0 index)) }
{
    Act::Call {
        by: call_by(op),
        usage: app.lock_use(method, index),
        args,
        gives: call_gives(app, app.named(method, index)),
    }
}

fn call_gives(app: &App, named: Option<Named>) -> Gives
    ensures { result ≡ spec.call_gives app.now named }
{
    match named {
        Some(named) => gives_of(app.result_text(named.proto)),
        None => Gives::Nothing,
    }
}

// What a call gives whose result has this descriptor.
fn gives_of(text: &[u8]) -> Gives
    ensures { result ≡ spec.gives_of text.now }
{
    if text == b"V".as_slice() {
        Gives::Nothing
    } else if is_reference(text) {
        Gives::Object
    } else {
        Gives::Number
    }
}

// Whether a descriptor is that of a class or an array.
fn is_reference(text: &[u8]) -> bool
    ensures { result ≡ is_reference text.now }
{
    match text {
        [first, ..] => *first == b'L' || *first == b'[',
        [] => false,
    }
}
