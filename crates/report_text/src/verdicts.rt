//! The answers to a certificate.
ghost use Rattle.std.specs.Prelude.{◌≡◌, ◌++◌, codes, IfOk};
ghost use Rattle.report_text.specs.Numbers.{numbers_text};
ghost use Rattle.report_text.specs.Texts.{line};
ghost use Rattle.report_text.specs.Verdicts as spec;
ghost use Rattle.report_text.specs.Verdicts.{bad_certificate_text, rule_name};

use crate::heads::push_violation;
use crate::numbers::push_numbers;
use app_model::Subject;
use cert_check::{Checked, Rule};
use flow_model::Violation;
use ns_base::OutOfMemory;
use std::alloc::{AllocError, Global};

/// The first wrong line of bytes that are no certificate: `bad certificate line N`.
pub fn bad_certificate(alloc: Global, line: u64) -> Result<Vec<u8>, AllocError>
    ensures { IfOk result (λ text. text.items ≡ bad_certificate_text line) }
{
    let mut text = b"bad certificate line".to_vec(alloc)?;
    push_numbers(alloc, &mut text, &[line as usize])?;
    text.push(b'\n')?;
    Ok(text)
}

fn name_of_rule(rule: Rule) -> &'static [u8]
    ensures { result.now ≡ rule_name rule }
{
    match rule {
        Rule::V1 => b"V1",
        Rule::V2 => b"V2",
        Rule::V3 => b"V3",
        Rule::V4 => b"V4",
        Rule::V5 => b"V5",
        Rule::I1 => b"I1",
        Rule::I2 => b"I2",
        Rule::I3 => b"I3",
        Rule::C1 => b"C1",
        Rule::C2 => b"C2",
        Rule::C3 => b"C3",
    }
}

// Adds some words, with the numbers behind them, as a line.
fn push_line(
    alloc: Global,
    text: &mut Vec<u8>,
    words: &[u8],
    numbers: &[usize],
) -> Result<(), AllocError>
    ensures { IfOk result (λ _. text.new.items ≡ text.old.items ++ line (words.now ++ numbers_text numbers.now)) }
{
    text.extend_from_slice(words)?;
    push_numbers(alloc, text, numbers)?;
    text.push(b'\n')?;
    Ok(())
}

fn push_checked(
    alloc: Global,
    text: &mut Vec<u8>,
    subject: &Subject,
    checked: Checked,
) -> Result<(), AllocError>
    ensures { IfOk result (λ _. text.new.items ≡ text.old.items ++ spec.checked_text subject.now.app subject.now.list checked) }
{
    match checked {
        Checked::Valid => push_line(alloc, text, b"valid", &[]),
        Checked::ListDigest => push_line(alloc, text, b"broken digest list", &[]),
        Checked::DexDigest(file) => push_line(alloc, text, b"broken digest dex", &[file as usize]),
        Checked::Shape(lock) => push_line(alloc, text, b"broken shape", &[lock as usize]),
        Checked::Broken {
            rule,
            lock,
            a,
            b,
            c,
        } => {
            text.extend_from_slice(b"broken ")?;
            let numbers = [lock as usize, a as usize, b as usize, c as usize];
            push_line(alloc, text, name_of_rule(rule), &numbers)
        }
        Checked::Unmet {
            component,
            callback,
            lock,
            status,
        } => {
            let violation = Violation {
                component,
                callback,
                lock,
                status,
            };
            text.extend_from_slice(b"unmet ")?;
            push_violation(text, &subject.app, &subject.list.rows, violation)?;
            text.push(b'\n')?;
            Ok(())
        }
    }
}

/// The verdict on a certificate: `valid`, `broken ..` or `unmet ..`, names shown.
pub fn checked_text(
    alloc: Global,
    subject: &Subject,
    checked: &Checked,
) -> Result<Vec<u8>, OutOfMemory>
    ensures { IfOk result (λ text. text.items ≡ spec.checked_text subject.now.app subject.now.list checked.now) }
{
    let mut text = Vec::new(alloc);
    match push_checked(alloc, &mut text, subject, *checked) {
        Ok(()) => Ok(text),
        Err(AllocError) => Err(OutOfMemory),
    }
}
