//! The steps of a body.
ghost use Rattle.std.specs.Prelude.{◌≡◌, IfOk, option_copied, option_map};
ghost use Rattle.cert_line.specs.Reading.{pieces};
ghost use Rattle.path_reader.specs.Reading.{cites_in, left_by, step_in, step_of, steps_in};

use crate::fields::{next, row, status};
use report_path::Step;
use std::alloc::{AllocError, Global};

#[tactic(auto, unfolding(crate::specs::Reading::cites_in))]
fn cites(rest: Option<&[u8]>) -> Option<Option<u32>>
    ensures { result ≡ cites_in (left_by 47 (option_copied rest.entry)) }
{
    let Some((field, rest)) = next(rest, b'/') else {
        return Some(None);
    };
    match next(rest, b'/') {
        None => row(field).map(Some),
        Some(_) => None,
    }
}

#[tactic(auto, unfolding(crate::specs::Reading::step_of))]
fn made(pc: &[u8], name: &[u8], cites: Option<u32>) -> Option<Step>
    ensures { result ≡ step_of pc.now name.now cites }
{
    let pc = row(pc)?;
    let status = status(name)?;
    Some(Step { pc, status, cites })
}

#[tactic(auto, unfolding(crate::specs::Reading::step_in))]
fn step(item: &[u8]) -> Option<Step>
    ensures { result ≡ step_in (pieces 47 item.now) }
{
    let (pc, rest) = next(Some(item), b'/')?;
    let (name, rest) = next(rest, b'/')?;
    let cites = cites(rest)?;
    made(pc, name, cites)
}

/// The steps that all fields of the rest spell.
#[tactic(auto, using(crate::proofs::StepFields::one_more, crate::proofs::StepFields::no_step), unfolding(crate::specs::Reading::steps_in))]
pub fn steps(alloc: Global, rest: Option<&[u8]>) -> Result<Option<Vec<Step>>, AllocError>
    ensures { IfOk result (λ o. option_map (λ v. v.items) o ≡ steps_in (left_by 32 (option_copied rest.entry))) }
{
    let mut steps = Vec::new(alloc);
    let mut left = rest;
    while let Some((item, more)) = next(left, b' ') {
        let Some(step) = step(item) else {
            return Ok(None);
        };
        steps.push(step)?;
        left = more;
    }
    Ok(Some(steps))
}
