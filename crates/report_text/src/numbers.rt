//! How the numbers of a fault are written.
ghost use Rattle.std.specs.Prelude.{◌≡◌, ◌++◌, decimal, IfOk};
ghost use Rattle.report_text.specs.Numbers.{number_text, numbers_text};

use std::alloc::{AllocError, Global};

/// Adds each number in decimal, after a space.
pub fn push_numbers(alloc: Global, text: &mut Vec<u8>, numbers: &[usize]) -> Result<(), AllocError>
    ensures { IfOk result (λ _. text.new.items ≡ text.old.items ++ numbers_text numbers.now) }
{
    for number in numbers {
        push_number(alloc, text, *number)?;
    }
    Ok(())
}

fn push_number(alloc: Global, text: &mut Vec<u8>, number: usize) -> Result<(), AllocError>
    ensures { IfOk result (λ _. text.new.items ≡ text.old.items ++ number_text number) }
{
    text.push(b' ')?;
    push_decimal(alloc, text, number)
}

/// Adds a number in decimal.
pub fn push_decimal(alloc: Global, text: &mut Vec<u8>, number: usize) -> Result<(), AllocError>
    ensures { IfOk result (λ _. text.new.items ≡ text.old.items ++ decimal number) }
{
    let digits = number.to_string(alloc)?;
    text.extend_from_slice(digits.as_bytes())?;
    Ok(())
}
