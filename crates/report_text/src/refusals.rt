//! The refusal of an application that is out of scope.
ghost use Rattle.std.specs.Prelude.{◌≡◌, ◌++◌, IfOk};
ghost use Rattle.report_text.specs.Refusals.{refused_text};

use crate::numbers::{push_decimal, push_numbers};
use app_model::push_member;
use ns_base::OutOfMemory;
use scope_check::ScopeFault;
use std::alloc::{AllocError, Global};

fn push_refusal(alloc: Global, text: &mut Vec<u8>, fault: &ScopeFault) -> Result<(), AllocError>
    ensures { IfOk result (λ _. text.new.items ≡ text.old.items ++ refused_text fault.now) }
{
    match fault {
        ScopeFault::Rule {
            rule,
            method,
            pc,
            class_name,
            method_name,
        } => {
            text.extend_from_slice(b"refused N")?;
            push_decimal(alloc, text, *rule as usize)?;
            text.push(b' ')?;
            push_member(text, class_name, method_name)?;
            push_numbers(alloc, text, &[method.0 as usize, *pc as usize])?;
            text.push(b'\n')?;
            Ok(())
        }
        ScopeFault::Memory => Ok(()),
    }
}

/// The rule that is broken, and where: `refused N4 CLASS->METHOD NUMBER PC`, names shown. Want of memory is no refusal, and
/// has no text.
pub fn refusal_text(alloc: Global, fault: &ScopeFault) -> Result<Vec<u8>, OutOfMemory>
    ensures { IfOk result (λ text. text.items ≡ refused_text fault.now) }
{
    let mut text = Vec::new(alloc);
    match push_refusal(alloc, &mut text, fault) {
        Ok(()) => Ok(text),
        Err(AllocError) => Err(OutOfMemory),
    }
}
