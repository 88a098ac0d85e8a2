//! The lines and views that a violation needs.
ghost use Rattle.std.specs.Prelude.{◌≡◌, ◌<◌, ◌↔◌, ◌⊎◌, Some, IfOk, IsTrue, length, slice_get};
ghost use Rattle.derivation.specs.Cuts.{AreAllMarked, AreNeeded, AreServed, AreSettled, AreViewsMarked, ByNeeds, IsOneDown, IsOneViewDown, Marked, Marks, WhyNeeds, cited_by};

use crate::cutting::Exit;
use fact_log::{FactLog, Line, Why};
use report_path::{By, ViewStep};
use std::alloc::{AllocError, Global};

/// A mark for each line, and for each view.
#[derive(Drop)]
pub struct Needed {
    pub lines: Vec<bool>,
    pub views: Vec<bool>,
}

pub fn line_at(lines: &[Line], k: usize) -> Line
    requires { k < length lines.now }
    ensures { slice_get lines.now k ≡ Some result }
{
    lines[k]
}

pub fn view_at(views: &[ViewStep], k: usize) -> ViewStep
    requires { k < length views.now }
    ensures { slice_get views.now k ≡ Some result }
{
    views[k]
}

pub fn is_marked(marks: &[bool], k: usize) -> bool
    ensures { IsTrue result ↔ Marked marks.now k }
{
    match marks.get(k).copied() {
        Some(mark) => mark,
        None => false,
    }
}

fn set_mark(marks: &mut Vec<bool>, place: u32)
    ensures { Marks marks.old.items (λ n. n ≡ place) marks.new.items }
{
    if (place as usize) < marks.len() {
        marks[place as usize] = true;
    }
}

fn set_two(marks: &mut Vec<bool>, first: u32, second: u32)
    ensures { Marks marks.old.items (λ n. (n ≡ first) ⊎ (n ≡ second)) marks.new.items }
{
    set_mark(marks, first);
    set_mark(marks, second);
}

fn set_cited(marks: &mut Vec<bool>, end: Option<u32>)
    ensures { Marks marks.old.items (λ n. end ≡ Some n) marks.new.items }
{
    match end {
        Some(number) => set_mark(marks, number),
        None => (),
    }
}

fn set_led(marks: &mut Vec<bool>, from: u32, end: Option<u32>)
    ensures { Marks marks.old.items (λ n. (n ≡ from) ⊎ (end ≡ Some n)) marks.new.items }
{
    set_mark(marks, from);
    set_cited(marks, end);
}

fn mark_why(marks: &mut Vec<bool>, why: Why)
    ensures { Marks marks.old.items (WhyNeeds why) marks.new.items }
{
    match why {
        Why::Entered => (),
        Why::Led { from, end } => set_led(marks, from, end),
    }
}

// Marks what a line needs, if it is marked itself.
fn mark_line(lines: &[Line], marks: &mut Vec<bool>, k: usize)
    requires { k < length lines.now }
    ensures { IsOneDown lines.now k marks.old.items marks.new.items }
{
    let x = line_at(lines, k);
    if is_marked(marks, k) {
        mark_why(marks, x.why);
    }
}

fn mark_lines(lines: &[Line], marks: &mut Vec<bool>)
    requires { length marks.old.items ≡ length lines.now }
    ensures { AreAllMarked lines.now marks.old.items marks.new.items }
{
    let mut k = lines.len();
    while k > 0 {
        k -= 1;
        mark_line(lines, marks, k);
    }
}

fn mark_by(seen: &mut Vec<bool>, by: By)
    ensures { Marks seen.old.items (ByNeeds by) seen.new.items }
{
    match by {
        By::Start => (),
        By::Outside { view, edge: _ } => set_mark(seen, view),
        By::Own {
            view,
            edge: _,
            body: _,
        } => set_mark(seen, view),
        By::Other {
            view,
            mover,
            edge: _,
            body: _,
        } => set_two(seen, view, mover),
    }
}

fn line_cited(by: By) -> Option<u32>
    ensures { result ≡ cited_by by }
{
    match by {
        By::Start => None,
        By::Outside { view: _, edge: _ } => None,
        By::Own {
            view: _,
            edge: _,
            body,
        } => Some(body),
        By::Other {
            view: _,
            mover: _,
            edge: _,
            body,
        } => body,
    }
}

// Marks what a view needs, if it is marked itself.
fn mark_view(views: &[ViewStep], seen: &mut Vec<bool>, marks: &mut Vec<bool>, k: usize)
    requires { k < length views.now }
    ensures { (lines : _) → IsOneViewDown lines views.now k seen.old.items marks.old.items seen.new.items marks.new.items }
{
    let v = view_at(views, k);
    if is_marked(seen, k) {
        mark_by(seen, v.by);
        set_cited(marks, line_cited(v.by));
    }
}

fn mark_views(views: &[ViewStep], seen: &mut Vec<bool>, marks: &mut Vec<bool>)
    requires { length seen.old.items ≡ length views.now }
    ensures { (lines : _) → length marks.old.items ≡ length lines → AreViewsMarked lines views.now seen.old.items marks.old.items seen.new.items marks.new.items }
{
    let mut k = views.len();
    while k > 0 {
        k -= 1;
        mark_view(views, seen, marks, k);
    }
}

/// Marks a view and a line, and all that they need.
pub fn mark_needed(alloc: Global, log: &FactLog, exit: Exit) -> Result<Needed, AllocError>
    ensures { IfOk result (λ needed. AreNeeded log.now.lines.items log.now.views.items exit needed.views.items needed.lines.items) }
{
    let mut views = vec![in alloc; false; log.views.len()]?;
    let mut lines = vec![in alloc; false; log.lines.len()]?;
    set_mark(&mut views, exit.view);
    set_cited(&mut lines, exit.end);
    mark_views(&log.views, &mut views, &mut lines);
    mark_lines(&log.lines, &mut lines);
    Ok(Needed { lines, views })
}
