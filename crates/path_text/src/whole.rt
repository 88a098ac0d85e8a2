//! All lines of a report behind its head.
ghost use Rattle.std.specs.Prelude.{◌≡◌, ◌++◌, length, slice_get, OnOk};
ghost use Rattle.path_text.specs.Lines.{body_line, line_at, lines_below, path_text, view_line};

use crate::lines::{put_body, put_exit, put_view};
use report_path::{BodyPath, Report, ViewStep};
use std::alloc::AllocError;

fn put_body_at(out: &mut Vec<u8>, bodies: &[BodyPath], number: usize) -> Result<(), AllocError>
    ensures { OnOk result (out.new.items ≡ out.old.items ++ line_at body_line number (slice_get bodies.now number)) }
{
    match bodies.get(number) {
        Some(body) => put_body(out, number, body),
        None => Ok(()),
    }
}

fn put_bodies(out: &mut Vec<u8>, bodies: &[BodyPath]) -> Result<(), AllocError>
    ensures { OnOk result (out.new.items ≡ out.old.items ++ lines_below body_line bodies.now (length bodies.now)) }
{
    for number in 0..bodies.len() {
        put_body_at(out, bodies, number)?;
    }
    Ok(())
}

fn put_view_at(out: &mut Vec<u8>, views: &[ViewStep], number: usize) -> Result<(), AllocError>
    ensures { OnOk result (out.new.items ≡ out.old.items ++ line_at view_line number (slice_get views.now number)) }
{
    match views.get(number).copied() {
        Some(view) => put_view(out, number, view),
        None => Ok(()),
    }
}

fn put_views(out: &mut Vec<u8>, views: &[ViewStep]) -> Result<(), AllocError>
    ensures { OnOk result (out.new.items ≡ out.old.items ++ lines_below view_line views.now (length views.now)) }
{
    for number in 0..views.len() {
        put_view_at(out, views, number)?;
    }
    Ok(())
}

/// Adds the lines of a report behind its head.
#[tactic(auto, unfolding(crate::specs::Lines::path_text))]
pub fn put_path(out: &mut Vec<u8>, report: &Report) -> Result<(), AllocError>
    ensures { OnOk result (out.new.items ≡ out.old.items ++ path_text report.now) }
{
    put_bodies(out, &report.bodies)?;
    put_views(out, &report.views)?;
    put_exit(out, report)
}
