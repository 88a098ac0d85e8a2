//! What stands for each opcode: the format of its units and the kind of instruction.
ghost use Rattle.std.specs.Prelude.{◌≡◌, ◌<◌, slice_index_or};
ghost use Rattle.dalvik_decode.specs.Table.{row_of, units_of};

/// How an instruction's operands lie in its units, under the format page's names.
#[derive(Clone, Copy)]
pub enum Format {
    /// No operands.
    F10x,
    /// A, B.
    F12x,
    /// A, and a literal of four bits.
    F11n,
    /// AA.
    F11x,
    /// An offset of 8 bits.
    F10t,
    /// An offset of 16 bits.
    F20t,
    /// AA, BBBB.
    F22x,
    /// AA, and an offset of 16 bits.
    F21t,
    /// AA, and a literal of 16 bits.
    F21s,
    /// AA, and the top 16 bits of a literal of 32.
    F21h,
    /// 21h for a wide register: AA, and the top 16 bits of a literal of 64.
    F21hWide,
    /// AA, and an index of 16 bits.
    F21c,
    /// AA, BB, CC.
    F23x,
    /// AA, BB, and a literal of 8 bits.
    F22b,
    /// A, B, and an offset of 16 bits.
    F22t,
    /// A, B, and a literal of 16 bits.
    F22s,
    /// A, B, and an index of 16 bits.
    F22c,
    /// An offset of 32 bits.
    F30t,
    /// AAAA, BBBB.
    F32x,
    /// AA, and a literal of 32 bits.
    F31i,
    /// AA, and an offset of 32 bits.
    F31t,
    /// AA, and an index of 32 bits.
    F31c,
    /// An index of 16 bits, and up to five argument registers.
    F35c,
    /// An index of 16 bits, and AA argument registers from CCCC on.
    F3rc,
    /// AA, and a literal of 64 bits.
    F51l,
}

/// What an instruction is. Each is one variant of `Ins`, but that `BinaryOnto` is a `Binary` that
/// writes the register that it reads first.
#[derive(Clone, Copy)]
pub enum Kind {
    Nop,
    Move,
    MoveResult,
    MoveException,
    ReturnVoid,
    Return,
    Const,
    ConstString,
    ConstClass,
    Monitor,
    CheckCast,
    InstanceOf,
    ArrayLength,
    NewInstance,
    NewArray,
    FilledNewArray,
    FillArrayData,
    Throw,
    Goto,
    Switch,
    Compare,
    IfPair,
    IfZero,
    ArrayGet,
    ArrayPut,
    FieldGet,
    FieldPut,
    StaticGet,
    StaticPut,
    Invoke,
    Unary,
    Binary,
    BinaryOnto,
    BinaryLiteral,
}

/// The format and the kind of an opcode.
#[derive(Clone, Copy)]
pub struct Row {
    pub format: Format,
    pub kind: Kind,
}

macro_rules! row {
    ($format:ident $kind:ident) => {
        Some(Row { format: Format::$format, kind: Kind::$kind })
    };
}

/// The rows by opcode.
static ROWS: [Option<Row>; 256] = [
    // 00 to 0f
    row!(F10x Nop),
    row!(F12x Move),
    row!(F22x Move),
    row!(F32x Move),
    row!(F12x Move),
    row!(F22x Move),
    row!(F32x Move),
    row!(F12x Move),
    row!(F22x Move),
    row!(F32x Move),
    row!(F11x MoveResult),
    row!(F11x MoveResult),
    row!(F11x MoveResult),
    row!(F11x MoveException),
    row!(F10x ReturnVoid),
    row!(F11x Return),
    // 10 to 1f
    row!(F11x Return),
    row!(F11x Return),
    row!(F11n Const),
    row!(F21s Const),
    row!(F31i Const),
    row!(F21h Const),
    row!(F21s Const),
    row!(F31i Const),
    row!(F51l Const),
    row!(F21hWide Const),
    row!(F21c ConstString),
    row!(F31c ConstString),
    row!(F21c ConstClass),
    row!(F11x Monitor),
    row!(F11x Monitor),
    row!(F21c CheckCast),
    // 20 to 2f
    row!(F22c InstanceOf),
    row!(F12x ArrayLength),
    row!(F21c NewInstance),
    row!(F22c NewArray),
    row!(F35c FilledNewArray),
    row!(F3rc FilledNewArray),
    row!(F31t FillArrayData),
    row!(F11x Throw),
    row!(F10t Goto),
    row!(F20t Goto),
    row!(F30t Goto),
    row!(F31t Switch),
    row!(F31t Switch),
    row!(F23x Compare),
    row!(F23x Compare),
    row!(F23x Compare),
    // 30 to 3f
    row!(F23x Compare),
    row!(F23x Compare),
    row!(F22t IfPair),
    row!(F22t IfPair),
    row!(F22t IfPair),
    row!(F22t IfPair),
    row!(F22t IfPair),
    row!(F22t IfPair),
    row!(F21t IfZero),
    row!(F21t IfZero),
    row!(F21t IfZero),
    row!(F21t IfZero),
    row!(F21t IfZero),
    row!(F21t IfZero),
    None,
    None,
    // 40 to 4f
    None,
    None,
    None,
    None,
    row!(F23x ArrayGet),
    row!(F23x ArrayGet),
    row!(F23x ArrayGet),
    row!(F23x ArrayGet),
    row!(F23x ArrayGet),
    row!(F23x ArrayGet),
    row!(F23x ArrayGet),
    row!(F23x ArrayPut),
    row!(F23x ArrayPut),
    row!(F23x ArrayPut),
    row!(F23x ArrayPut),
    row!(F23x ArrayPut),
    // 50 to 5f
    row!(F23x ArrayPut),
    row!(F23x ArrayPut),
    row!(F22c FieldGet),
    row!(F22c FieldGet),
    row!(F22c FieldGet),
    row!(F22c FieldGet),
    row!(F22c FieldGet),
    row!(F22c FieldGet),
    row!(F22c FieldGet),
    row!(F22c FieldPut),
    row!(F22c FieldPut),
    row!(F22c FieldPut),
    row!(F22c FieldPut),
    row!(F22c FieldPut),
    row!(F22c FieldPut),
    row!(F22c FieldPut),
    // 60 to 6f
    row!(F21c StaticGet),
    row!(F21c StaticGet),
    row!(F21c StaticGet),
    row!(F21c StaticGet),
    row!(F21c StaticGet),
    row!(F21c StaticGet),
    row!(F21c StaticGet),
    row!(F21c StaticPut),
    row!(F21c StaticPut),
    row!(F21c StaticPut),
    row!(F21c StaticPut),
    row!(F21c StaticPut),
    row!(F21c StaticPut),
    row!(F21c StaticPut),
    row!(F35c Invoke),
    row!(F35c Invoke),
    // 70 to 7f
    row!(F35c Invoke),
    row!(F35c Invoke),
    row!(F35c Invoke),
    None,
    row!(F3rc Invoke),
    row!(F3rc Invoke),
    row!(F3rc Invoke),
    row!(F3rc Invoke),
    row!(F3rc Invoke),
    None,
    None,
    row!(F12x Unary),
    row!(F12x Unary),
    row!(F12x Unary),
    row!(F12x Unary),
    row!(F12x Unary),
    // 80 to 8f
    row!(F12x Unary),
    row!(F12x Unary),
    row!(F12x Unary),
    row!(F12x Unary),
    row!(F12x Unary),
    row!(F12x Unary),
    row!(F12x Unary),
    row!(F12x Unary),
    row!(F12x Unary),
    row!(F12x Unary),
    row!(F12x Unary),
    row!(F12x Unary),
    row!(F12x Unary),
    row!(F12x Unary),
    row!(F12x Unary),
    row!(F12x Unary),
    // 90 to 9f
    row!(F23x Binary),
    row!(F23x Binary),
    row!(F23x Binary),
    row!(F23x Binary),
    row!(F23x Binary),
    row!(F23x Binary),
    row!(F23x Binary),
    row!(F23x Binary),
    row!(F23x Binary),
    row!(F23x Binary),
    row!(F23x Binary),
    row!(F23x Binary),
    row!(F23x Binary),
    row!(F23x Binary),
    row!(F23x Binary),
    row!(F23x Binary),
    // a0 to af
    row!(F23x Binary),
    row!(F23x Binary),
    row!(F23x Binary),
    row!(F23x Binary),
    row!(F23x Binary),
    row!(F23x Binary),
    row!(F23x Binary),
    row!(F23x Binary),
    row!(F23x Binary),
    row!(F23x Binary),
    row!(F23x Binary),
    row!(F23x Binary),
    row!(F23x Binary),
    row!(F23x Binary),
    row!(F23x Binary),
    row!(F23x Binary),
    // b0 to bf
    row!(F12x BinaryOnto),
    row!(F12x BinaryOnto),
    row!(F12x BinaryOnto),
    row!(F12x BinaryOnto),
    row!(F12x BinaryOnto),
    row!(F12x BinaryOnto),
    row!(F12x BinaryOnto),
    row!(F12x BinaryOnto),
    row!(F12x BinaryOnto),
    row!(F12x BinaryOnto),
    row!(F12x BinaryOnto),
    row!(F12x BinaryOnto),
    row!(F12x BinaryOnto),
    row!(F12x BinaryOnto),
    row!(F12x BinaryOnto),
    row!(F12x BinaryOnto),
    // c0 to cf
    row!(F12x BinaryOnto),
    row!(F12x BinaryOnto),
    row!(F12x BinaryOnto),
    row!(F12x BinaryOnto),
    row!(F12x BinaryOnto),
    row!(F12x BinaryOnto),
    row!(F12x BinaryOnto),
    row!(F12x BinaryOnto),
    row!(F12x BinaryOnto),
    row!(F12x BinaryOnto),
    row!(F12x BinaryOnto),
    row!(F12x BinaryOnto),
    row!(F12x BinaryOnto),
    row!(F12x BinaryOnto),
    row!(F12x BinaryOnto),
    row!(F12x BinaryOnto),
    // d0 to df
    row!(F22s BinaryLiteral),
    row!(F22s BinaryLiteral),
    row!(F22s BinaryLiteral),
    row!(F22s BinaryLiteral),
    row!(F22s BinaryLiteral),
    row!(F22s BinaryLiteral),
    row!(F22s BinaryLiteral),
    row!(F22s BinaryLiteral),
    row!(F22b BinaryLiteral),
    row!(F22b BinaryLiteral),
    row!(F22b BinaryLiteral),
    row!(F22b BinaryLiteral),
    row!(F22b BinaryLiteral),
    row!(F22b BinaryLiteral),
    row!(F22b BinaryLiteral),
    row!(F22b BinaryLiteral),
    // e0 to ef
    row!(F22b BinaryLiteral),
    row!(F22b BinaryLiteral),
    row!(F22b BinaryLiteral),
    None,
    None,
    None,
    None,
    None,
    None,
    None,
    None,
    None,
    None,
    None,
    None,
    None,
    // f0 to ff
    None,
    None,
    None,
    None,
    None,
    None,
    None,
    None,
    None,
    None,
    None,
    None,
    None,
    None,
    None,
    None,
];

/// The row of an opcode, or none where the page leaves the opcode unused.
#[tactic(auto, using(crate::proofs::Rows::rows_are))]
pub fn find_row(op: u8) -> Option<Row>
    ensures { result ≡ row_of op }
{
    ROWS[op as usize]
}

/// How many units an instruction of this format takes.
pub fn unit_count(format: Format) -> usize
    ensures count { result ≡ units_of format }
    ensures bounds { (0 < result) × (result < 6) }
{
    match format {
        Format::F10x | Format::F12x | Format::F11n | Format::F11x | Format::F10t => 1,
        Format::F20t
        | Format::F22x
        | Format::F21t
        | Format::F21s
        | Format::F21h
        | Format::F21hWide
        | Format::F21c
        | Format::F23x
        | Format::F22b
        | Format::F22t
        | Format::F22s
        | Format::F22c => 2,
        Format::F30t
        | Format::F32x
        | Format::F31i
        | Format::F31t
        | Format::F31c
        | Format::F35c
        | Format::F3rc => 3,
        Format::F51l => 5,
    }
}
