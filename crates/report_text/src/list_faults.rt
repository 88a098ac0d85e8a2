//! The refusal of a component list.
ghost use Rattle.std.specs.Prelude.{◌≡◌, ◌++◌, IfOk};
ghost use Rattle.report_text.specs.ListFaults.{bad_list_text, list_fault_key, list_fault_name, list_fault_numbers};
ghost use Rattle.report_text.specs.Numbers.{numbers_text};

use crate::numbers::push_numbers;
use app_model::push_shown;
use component_list::ListFault;
use std::alloc::{AllocError, Global};

/// A list that is none, or does not fit its application. A limit or memory is no fault of the list, and
/// its text is not printed.
pub fn bad_list(alloc: Global, fault: &ListFault) -> Result<Vec<u8>, AllocError>
    ensures { IfOk result (λ text. text.items ≡ bad_list_text fault.now) }
{
    let mut text = b"bad list ".to_vec(alloc)?;
    text.extend_from_slice(fault_name(fault))?;
    push_list_numbers(alloc, &mut text, fault)?;
    push_list_key(&mut text, fault)?;
    text.push(b'\n')?;
    Ok(text)
}

fn fault_name(fault: &ListFault) -> &'static [u8]
    ensures { result.now ≡ list_fault_name fault.now }
{
    match fault {
        ListFault::Text => b"Text",
        ListFault::Key(..) => b"Key",
        ListFault::Kind(_) => b"Kind",
        ListFault::EmptyExits(_) => b"EmptyExits",
        ListFault::ExitName(..) => b"ExitName",
        ListFault::Twice(_) => b"Twice",
        ListFault::NoClass(_) => b"NoClass",
        ListFault::NoCallback(_) => b"NoCallback",
        ListFault::Limit(_) => b"Limit",
        ListFault::Memory => b"Memory",
    }
}

fn push_list_numbers(alloc: Global, text: &mut Vec<u8>, fault: &ListFault) -> Result<(), AllocError>
    ensures { IfOk result (λ _. text.new.items ≡ text.old.items ++ numbers_text (list_fault_numbers fault.now)) }
{
    match fault {
        ListFault::Key(row, _)
        | ListFault::Kind(row)
        | ListFault::EmptyExits(row)
        | ListFault::Twice(row)
        | ListFault::NoClass(row)
        | ListFault::NoCallback(row) => push_numbers(alloc, text, &[*row as usize]),
        ListFault::ExitName(row, name) => {
            push_numbers(alloc, text, &[*row as usize, *name as usize])
        }
        _ => Ok(()),
    }
}

fn push_list_key(text: &mut Vec<u8>, fault: &ListFault) -> Result<(), AllocError>
    ensures { IfOk result (λ _. text.new.items ≡ text.old.items ++ list_fault_key fault.now) }
{
    match fault {
        ListFault::Key(_, key) => {
            text.push(b' ')?;
            push_shown(text, key.as_str().as_bytes())
        }
        _ => Ok(()),
    }
}
