//! Instructions, decoded.
//!
//! `op` is the opcode byte, where one variant stands for several opcodes. Registers come in the
//! order of the bytecode page: the one written first, then those read. An `offset` counts code units
//! from the instruction's own pc.

/// The argument registers of a call or a filled array.
#[derive(Clone, Copy, Debug, PartialEq, Eq)]
pub enum Args {
    /// The first `count` of the registers; those after them are 0.
    List { count: u8, registers: [u32; 5] },
    /// `count` registers from `first` on.
    Range { first: u32, count: u32 },
}

/// An instruction.
#[derive(Clone, Copy, Debug, PartialEq, Eq)]
pub enum Ins {
    /// Does nothing. One stands before a payload where the payload has to begin at an even pc.
    Nop,
    /// Copies a register, or a pair for the wide forms.
    Move {
        op: u8,
        to: u32,
        from: u32,
    },
    /// Takes the result of the call or filled array before it.
    MoveResult {
        op: u8,
        to: u32,
    },
    /// Takes the exception that was caught.
    MoveException {
        to: u32,
    },
    /// Returns nothing.
    ReturnVoid,
    /// Returns a register, or a pair for the wide form.
    Return {
        op: u8,
        from: u32,
    },
    /// Writes a number, extended by its sign; the high16 forms hold the shifted number.
    Const {
        op: u8,
        to: u32,
        value: i64,
    },
    /// Writes a string by its index.
    ConstString {
        op: u8,
        to: u32,
        string: u32,
    },
    /// Writes the class object of a type.
    ConstClass {
        to: u32,
        kind: u32,
    },
    /// Enters or leaves a monitor.
    Monitor {
        op: u8,
        object: u32,
    },
    /// Throws unless the object is of the type.
    CheckCast {
        object: u32,
        kind: u32,
    },
    /// Writes whether the object is of the type.
    InstanceOf {
        to: u32,
        object: u32,
        kind: u32,
    },
    /// Writes the length of an array.
    ArrayLength {
        to: u32,
        array: u32,
    },
    /// Writes a new object of the type.
    NewInstance {
        to: u32,
        kind: u32,
    },
    /// Writes a new array of the type, with `size` elements.
    NewArray {
        to: u32,
        size: u32,
        kind: u32,
    },
    /// Makes an array of its arguments, for a move-result behind it.
    FilledNewArray {
        op: u8,
        kind: u32,
        args: Args,
    },
    /// Fills an array from the data at the offset.
    FillArrayData {
        array: u32,
        offset: i32,
    },
    /// Throws the object.
    Throw {
        object: u32,
    },
    /// Goes to the offset.
    Goto {
        op: u8,
        offset: i32,
    },
    /// Goes on by the table at the offset, where the table has the value.
    Switch {
        op: u8,
        value: u32,
        offset: i32,
    },
    /// Compares two numbers.
    Compare {
        op: u8,
        to: u32,
        left: u32,
        right: u32,
    },
    /// Goes to the offset where the comparison of two registers holds.
    IfPair {
        op: u8,
        left: u32,
        right: u32,
        offset: i32,
    },
    /// Goes to the offset where the comparison with 0 holds.
    IfZero {
        op: u8,
        value: u32,
        offset: i32,
    },
    /// Reads an element of an array.
    ArrayGet {
        op: u8,
        to: u32,
        array: u32,
        index: u32,
    },
    /// Writes an element of an array.
    ArrayPut {
        op: u8,
        value: u32,
        array: u32,
        index: u32,
    },
    /// Reads an instance field.
    FieldGet {
        op: u8,
        to: u32,
        object: u32,
        field: u32,
    },
    /// Writes an instance field.
    FieldPut {
        op: u8,
        value: u32,
        object: u32,
        field: u32,
    },
    /// Reads a static field.
    StaticGet {
        op: u8,
        to: u32,
        field: u32,
    },
    /// Writes a static field.
    StaticPut {
        op: u8,
        value: u32,
        field: u32,
    },
    /// Calls a method.
    Invoke {
        op: u8,
        method: u32,
        args: Args,
    },
    /// An operation on one register.
    Unary {
        op: u8,
        to: u32,
        from: u32,
    },
    /// An operation on two registers; a /2addr form writes the register that it reads first.
    Binary {
        op: u8,
        to: u32,
        left: u32,
        right: u32,
    },
    /// An operation on a register and a number.
    BinaryLiteral {
        op: u8,
        to: u32,
        from: u32,
        value: i32,
    },
}
