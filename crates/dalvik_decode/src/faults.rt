//! What can be wrong with a method's code.
ghost use Rattle.std.specs.Prelude.{◌≡◌};

use std::alloc::AllocError;

/// What is wrong with a method's code. The first number is the pc of the instruction that is at
/// fault, where a variant says no other.
#[derive(Clone, Copy, Debug, PartialEq, Eq)]
pub enum CodeFault {
    /// The bytecode page leaves this opcode unused.
    BadOpcode(u32, u8),
    /// The units end inside the instruction.
    Truncated(u32),
    /// No payload stands there, or the units end inside it.
    BadPayload(u32),
    /// The instruction names this register, alone or as the second of a pair, and the method has
    /// not so many.
    Register(u32, u32),
    /// The instruction names this index, which is past its table.
    Operand(u32, u32),
    /// More than five arguments in a format that has room for five, or not as many as the
    /// method called takes.
    ArgCount(u32),
    /// A branch or a switch leads to this pc, where no instruction starts.
    Target(u32, u32),
    /// No instruction starts after the instruction, and control goes on there.
    FallsOff(u32),
    /// No instruction starts at this pc, where an exception handler is said to start.
    TryTarget(u32),
    /// The instruction's offset leads to no payload of its kind.
    PayloadKind(u32),
    /// The method has not as many argument registers as its arguments take.
    InsSize,
    /// Memory ran out.
    Memory,
}

impl From<AllocError> for CodeFault {
    ghost use Rattle.dalvik_decode.specs.declared.faults.CodeFault.TheVariants.{Memory};

    ghost from_gives = { λ _ fault. fault ≡ Memory };

    fn from(_error: AllocError) -> CodeFault {
        CodeFault::Memory
    }
}
