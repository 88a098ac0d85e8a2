//! The refusal of a DEX file.
ghost use Rattle.std.specs.Prelude.{◌≡◌, ◌++◌, IfOk};
ghost use Rattle.report_text.specs.DexFaults.{bad_dex_text, dex_fault_name, dex_fault_numbers};
ghost use Rattle.report_text.specs.Numbers.{numbers_text};

use crate::numbers::{push_decimal, push_numbers};
use dex_bytes::DexFault;
use std::alloc::{AllocError, Global};

/// This file is no DEX file of the format. A limit or memory is no fault of the file, and its
/// text is not printed.
pub fn bad_dex(alloc: Global, file: u32, fault: DexFault) -> Result<Vec<u8>, AllocError>
    ensures { IfOk result (λ text. text.items ≡ bad_dex_text file fault) }
{
    let mut text = b"bad dex ".to_vec(alloc)?;
    push_decimal(alloc, &mut text, file as usize)?;
    text.push(b' ')?;
    text.extend_from_slice(name_of_dex_fault(fault))?;
    push_dex_numbers(alloc, &mut text, fault)?;
    text.push(b'\n')?;
    Ok(text)
}

fn name_of_dex_fault(fault: DexFault) -> &'static [u8]
    ensures { result.now ≡ dex_fault_name fault }
{
    match fault {
        DexFault::Short(_) => b"Short",
        DexFault::Magic => b"Magic",
        DexFault::Version => b"Version",
        DexFault::HeaderSize => b"HeaderSize",
        DexFault::Endian => b"Endian",
        DexFault::FileSize => b"FileSize",
        DexFault::Checksum => b"Checksum",
        DexFault::Signature => b"Signature",
        DexFault::Leb(_) => b"Leb",
        DexFault::Mutf8(_) => b"Mutf8",
        DexFault::TableRange(_) => b"TableRange",
        DexFault::Index(..) => b"Index",
        DexFault::MemberIndex(_) => b"MemberIndex",
        DexFault::Registers(_) => b"Registers",
        DexFault::TryRange(_) => b"TryRange",
        DexFault::HandlerOffset(_) => b"HandlerOffset",
        DexFault::HandlerAddress(_) => b"HandlerAddress",
        DexFault::Limit(_) => b"Limit",
        DexFault::Memory => b"Memory",
    }
}

fn push_dex_numbers(alloc: Global, text: &mut Vec<u8>, fault: DexFault) -> Result<(), AllocError>
    ensures { IfOk result (λ _. text.new.items ≡ text.old.items ++ numbers_text (dex_fault_numbers fault)) }
{
    match fault {
        DexFault::Short(place)
        | DexFault::Leb(place)
        | DexFault::Mutf8(place)
        | DexFault::MemberIndex(place)
        | DexFault::Registers(place)
        | DexFault::TryRange(place)
        | DexFault::HandlerOffset(place)
        | DexFault::HandlerAddress(place) => push_numbers(alloc, text, &[place]),
        DexFault::TableRange(table) => push_numbers(alloc, text, &[table as usize]),
        DexFault::Index(table, row, number) => {
            push_numbers(
                alloc,
                text,
                &[table as usize, row as usize, number as usize],
            )
        }
        _ => Ok(()),
    }
}
