//! The refusal of a method's code.
ghost use Rattle.std.specs.Prelude.{◌≡◌, ◌++◌, IfOk};
ghost use Rattle.report_text.specs.CodeFaults.{bad_code_text, code_fault_name, code_fault_numbers};
ghost use Rattle.report_text.specs.Numbers.{numbers_text};

use crate::numbers::{push_decimal, push_numbers};
use dalvik_decode::CodeFault;
use std::alloc::{AllocError, Global};

/// The code of this method id of this file is not well formed. Memory is no fault of the code,
/// and its text is not printed.
pub fn bad_code(
    alloc: Global,
    file: u32,
    method: u32,
    fault: CodeFault,
) -> Result<Vec<u8>, AllocError>
    ensures { IfOk result (λ text. text.items ≡ bad_code_text file method fault) }
{
    let mut text = b"bad dex ".to_vec(alloc)?;
    push_decimal(alloc, &mut text, file as usize)?;
    text.extend_from_slice(b" Code ")?;
    push_decimal(alloc, &mut text, method as usize)?;
    text.push(b' ')?;
    text.extend_from_slice(name_of_code_fault(fault))?;
    push_code_numbers(alloc, &mut text, fault)?;
    text.push(b'\n')?;
    Ok(text)
}

fn name_of_code_fault(fault: CodeFault) -> &'static [u8]
    ensures { result.now ≡ code_fault_name fault }
{
    match fault {
        CodeFault::BadOpcode(..) => b"BadOpcode",
        CodeFault::Truncated(_) => b"Truncated",
        CodeFault::BadPayload(_) => b"BadPayload",
        CodeFault::Register(..) => b"Register",
        CodeFault::Operand(..) => b"Operand",
        CodeFault::ArgCount(_) => b"ArgCount",
        CodeFault::Target(..) => b"Target",
        CodeFault::FallsOff(_) => b"FallsOff",
        CodeFault::TryTarget(_) => b"TryTarget",
        CodeFault::PayloadKind(_) => b"PayloadKind",
        CodeFault::InsSize => b"InsSize",
        CodeFault::Memory => b"Memory",
    }
}

fn push_code_numbers(alloc: Global, text: &mut Vec<u8>, fault: CodeFault) -> Result<(), AllocError>
    ensures { IfOk result (λ _. text.new.items ≡ text.old.items ++ numbers_text (code_fault_numbers fault)) }
{
    match fault {
        CodeFault::BadOpcode(pc, opcode) => push_numbers(
            alloc,
            text,
            &[pc as usize, opcode as usize],
        ),
        CodeFault::Register(pc, number)
        | CodeFault::Operand(pc, number)
        | CodeFault::Target(pc, number) => {
            push_numbers(alloc, text, &[pc as usize, number as usize])
        }
        CodeFault::Truncated(pc)
        | CodeFault::BadPayload(pc)
        | CodeFault::ArgCount(pc)
        | CodeFault::FallsOff(pc)
        | CodeFault::TryTarget(pc)
        | CodeFault::PayloadKind(pc) => push_numbers(alloc, text, &[pc as usize]),
        _ => Ok(()),
    }
}
