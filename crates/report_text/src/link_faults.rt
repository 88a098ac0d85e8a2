//! The refusal of files that are no application.
ghost use Rattle.std.specs.Prelude.{◌≡◌, ◌++◌, codes, IfOk};
ghost use Rattle.report_text.specs.LinkFaults.{bad_link_text, link_fault_head, link_fault_numbers};
ghost use Rattle.report_text.specs.Numbers.{numbers_text};
ghost use Rattle.app_model.specs.Shown.{shown};

use crate::numbers::push_numbers;
use app_model::push_shown;
use app_link::LinkFault;
use std::alloc::{AllocError, Global};

/// The files are no application. The name is that of the class row of a `DuplicateClass`, and
/// not used otherwise. A limit or memory is no fault of the files, and its text is not printed.
pub fn bad_link(alloc: Global, name: &[u8], fault: LinkFault) -> Result<Vec<u8>, AllocError>
    ensures { IfOk result (λ text. text.items ≡ bad_link_text name.now fault) }
{
    let mut text = b"bad link ".to_vec(alloc)?;
    push_link_head(&mut text, name, fault)?;
    push_link_numbers(alloc, &mut text, fault)?;
    text.push(b'\n')?;
    Ok(text)
}

fn push_link_head(text: &mut Vec<u8>, name: &[u8], fault: LinkFault) -> Result<(), AllocError>
    ensures { IfOk result (λ _. text.new.items ≡ text.old.items ++ link_fault_head name.now fault) }
{
    match fault {
        LinkFault::DuplicateClass(..) => push_duplicate(text, name),
        LinkFault::CodeMissing(..) => text.extend_from_slice(b"CodeMissing"),
        LinkFault::CodeUnwanted(..) => text.extend_from_slice(b"CodeUnwanted"),
        LinkFault::SuperCycle(..) => text.extend_from_slice(b"SuperCycle"),
        LinkFault::Limit(_) => text.extend_from_slice(b"Limit"),
        LinkFault::Memory => text.extend_from_slice(b"Memory"),
    }
}

fn push_duplicate(text: &mut Vec<u8>, name: &[u8]) -> Result<(), AllocError>
    ensures { IfOk result (λ _. text.new.items ≡ text.old.items ++ codes "DuplicateClass " ++ shown name.now) }
{
    text.extend_from_slice(b"DuplicateClass ")?;
    push_shown(text, name)
}

fn push_link_numbers(alloc: Global, text: &mut Vec<u8>, fault: LinkFault) -> Result<(), AllocError>
    ensures { IfOk result (λ _. text.new.items ≡ text.old.items ++ numbers_text (link_fault_numbers fault)) }
{
    match fault {
        LinkFault::DuplicateClass(file, _, number)
        | LinkFault::CodeMissing(file, number)
        | LinkFault::CodeUnwanted(file, number)
        | LinkFault::SuperCycle(file, number) => {
            push_numbers(alloc, text, &[file as usize, number as usize])
        }
        _ => Ok(()),
    }
}
