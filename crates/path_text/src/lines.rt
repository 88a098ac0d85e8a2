//! The lines of a report.
ghost use Rattle.std.specs.Prelude.{◌≡◌, ◌++◌, OnOk};
ghost use Rattle.std.specs.List.{flat_map};
ghost use Rattle.path_text.specs.Lines.{body_front, body_line, exit_front, exit_line, step_text, view_line, way};

use crate::fields::{put_body_field, put_cited, put_decimal, put_end, put_field, put_status};
use cert_line::name_of;
use report_path::{BodyPath, By, Report, Step, ViewStep};
use std::alloc::AllocError;

// Adds a step: its pc, its status, and what it cites.
#[tactic(auto, unfolding(crate::specs::Lines::step_text))]
fn put_step(out: &mut Vec<u8>, step: Step) -> Result<(), AllocError>
    ensures { OnOk result (out.new.items ≡ out.old.items ++ step_text step) }
{
    put_field(out, step.pc as u64)?;
    out.push(b'/')?;
    out.extend_from_slice(name_of(step.status))?;
    put_cited(out, step.cites)
}

fn put_steps(out: &mut Vec<u8>, steps: &[Step]) -> Result<(), AllocError>
    ensures { OnOk result (out.new.items ≡ out.old.items ++ flat_map step_text steps.now) }
{
    for step in steps {
        put_step(out, *step)?;
    }
    Ok(())
}

// Adds the front of a body, up to its steps.
#[tactic(auto, unfolding(crate::specs::Lines::body_front))]
fn put_body_front(out: &mut Vec<u8>, number: usize, body: &BodyPath) -> Result<(), AllocError>
    ensures { OnOk result (out.new.items ≡ out.old.items ++ body_front number body.now) }
{
    out.extend_from_slice(b"body ")?;
    put_decimal(out, number as u64)?;
    put_field(out, body.method as u64)?;
    put_status(out, body.entry)?;
    put_end(out, body.thrown)?;
    put_status(out, body.exit)
}

/// Adds a body by its number.
#[tactic(auto, unfolding(crate::specs::Lines::body_line))]
pub fn put_body(out: &mut Vec<u8>, number: usize, body: &BodyPath) -> Result<(), AllocError>
    ensures { OnOk result (out.new.items ≡ out.old.items ++ body_line number body.now) }
{
    put_body_front(out, number, body)?;
    put_steps(out, &body.steps)?;
    out.push(b'\n')?;
    Ok(())
}

// Adds how a view is reached.
#[tactic(auto, unfolding(crate::specs::Lines::way))]
fn put_way(out: &mut Vec<u8>, by: By) -> Result<(), AllocError>
    ensures { OnOk result (out.new.items ≡ out.old.items ++ way by) }
{
    match by {
        By::Start => out.extend_from_slice(b" start"),
        By::Outside { view, edge } => {
            out.extend_from_slice(b" outside")?;
            put_field(out, view as u64)?;
            put_field(out, edge as u64)
        }
        By::Own { view, edge, body } => {
            out.extend_from_slice(b" own")?;
            put_field(out, view as u64)?;
            put_field(out, edge as u64)?;
            put_field(out, body as u64)
        }
        By::Other {
            view,
            mover,
            edge,
            body,
        } => {
            out.extend_from_slice(b" other")?;
            put_field(out, view as u64)?;
            put_field(out, mover as u64)?;
            put_field(out, edge as u64)?;
            put_body_field(out, body)
        }
    }
}

/// Adds a view by its number.
#[tactic(auto, unfolding(crate::specs::Lines::view_line))]
pub fn put_view(out: &mut Vec<u8>, number: usize, view: ViewStep) -> Result<(), AllocError>
    ensures { OnOk result (out.new.items ≡ out.old.items ++ view_line number view) }
{
    out.extend_from_slice(b"view ")?;
    put_decimal(out, number as u64)?;
    put_field(out, view.component as u64)?;
    put_field(out, view.state as u64)?;
    put_status(out, view.status)?;
    put_way(out, view.by)?;
    out.push(b'\n')?;
    Ok(())
}

// Adds the front of the last step: what it is of, by which edge, and its status.
#[tactic(auto, unfolding(crate::specs::Lines::exit_front))]
fn put_exit_front(out: &mut Vec<u8>, report: &Report) -> Result<(), AllocError>
    ensures { OnOk result (out.new.items ≡ out.old.items ++ exit_front report.now) }
{
    out.extend_from_slice(b"exit ")?;
    put_decimal(out, report.component as u64)?;
    put_field(out, report.edge as u64)?;
    put_status(out, report.status)
}

/// Adds the last step.
#[tactic(auto, unfolding(crate::specs::Lines::exit_line))]
pub fn put_exit(out: &mut Vec<u8>, report: &Report) -> Result<(), AllocError>
    ensures { OnOk result (out.new.items ≡ out.old.items ++ exit_line report.now) }
{
    put_exit_front(out, report)?;
    put_field(out, report.view as u64)?;
    put_body_field(out, report.body)?;
    put_field(out, report.lock as u64)?;
    out.push(b'\n')?;
    Ok(())
}
