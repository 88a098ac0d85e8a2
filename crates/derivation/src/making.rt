//! The bodies of the marked ends.
ghost use Rattle.std.specs.Prelude.{◌≡◌, ◌<◌, Some, IfOk, OnOk, length, reverse, slice_get, slice_index, take};
ghost use Rattle.app_model.specs.Words.{code_len, pc_at};
ghost use Rattle.derivation.specs.Cuts.{AreMade, IsOneMore, IsPathOf, IsPc, before_of, ended_by, number_in, thrown_by};

use crate::marking::{is_marked, line_at};
use app_model::{App, Subject};
use fact_log::{Line, Why};
use ns_base::MethodNo;
use report_path::{BodyPath, Goal, Step};
use std::alloc::{AllocError, Global};

/// Bodies, and for each line the number of its body, or 0.
#[derive(Drop)]
pub struct Made {
    pub bodies: Vec<BodyPath>,
    pub numbers: Vec<u32>,
}

fn pc_of(app: &App, method: u32, index: u32) -> u32
    ensures { (p : _) → method < length app.now.methods → index < code_len app.now method → pc_at app.now method index ≡ Some p → result ≡ p }
{
    if method >= app.method_count() {
        return 0;
    }
    if index >= app.code_len(MethodNo(method)) {
        return 0;
    }
    app.ins(MethodNo(method), index).0
}

fn goal_pc(subject: &Subject, method: u32, goal: Goal) -> u32
    ensures { IsPc subject.now.app method goal result }
{
    match goal {
        Goal::Before(index) => pc_of(&subject.app, method, index),
        Goal::Returned => 0,
        Goal::Thrown => 0,
    }
}

fn end_thrown(goal: Goal) -> Option<bool>
    ensures { result ≡ thrown_by goal }
{
    match goal {
        Goal::Before(_) => None,
        Goal::Returned => Some(false),
        Goal::Thrown => Some(true),
    }
}

pub fn number_of(numbers: &[u32], line: u32) -> u32
    ensures { result ≡ slice_index numbers.now line }
{
    if (line as usize) < numbers.len() {
        numbers[line as usize]
    } else {
        0
    }
}

pub fn number_at(numbers: &[u32], cited: Option<u32>) -> Option<u32>
    ensures { result ≡ number_in numbers.now cited }
{
    match cited {
        None => None,
        Some(line) => Some(number_of(numbers, line)),
    }
}

fn line_before(why: Why) -> Option<u32>
    ensures { result ≡ before_of why }
{
    match why {
        Why::Entered => None,
        Why::Led { from, end: _ } => Some(from),
    }
}

fn line_ended(why: Why) -> Option<u32>
    ensures { result ≡ ended_by why }
{
    match why {
        Why::Entered => None,
        Why::Led { from: _, end } => end,
    }
}

fn place_of(line: u32) -> usize
    ensures { result ≡ line }
{
    line as usize
}

// A line, if it is a lower one.
fn lower_line(lines: &[Line], here: usize, from: u32) -> Option<Line>
    ensures { result ≡ slice_get (take here lines.now) from }
{
    if here > lines.len() {
        return lines.get(from as usize).copied();
    }
    let (before, _) = lines.split_at(here);
    before.get(from as usize).copied()
}

fn reversed(alloc: Global, steps: &[Step]) -> Result<Vec<Step>, AllocError>
    ensures { IfOk result (λ v. v.items ≡ reverse steps.now) }
{
    steps.iter().rev().copied().collect(alloc)
}

// The body of an end: back from its line to the entry of its method.
fn make_path(
    alloc: Global,
    subject: &Subject,
    lines: &[Line],
    numbers: &[u32],
    k: usize,
    x0: Line,
) -> Result<Vec<Step>, AllocError>
    requires { slice_get lines.now k ≡ Some x0 }
    ensures { IfOk result (λ v. IsPathOf subject.now lines.now numbers.now k x0 v.items) }
{
    let mut steps = Vec::new(alloc);
    let mut here = k;
    let mut x = x0;
    'back: loop {
        let Some(from) = line_before(x.why) else {
            let path = reversed(alloc, &steps)?;
            return Ok(path);
        };
        let Some(y) = lower_line(lines, here, from) else {
            let path = reversed(alloc, &steps)?;
            return Ok(path);
        };
        let pc = goal_pc(subject, y.method, y.goal);
        steps.push(Step {
            pc,
            status: y.status,
            cites: number_at(numbers, line_ended(x.why)),
        })?;
        here = place_of(from);
        x = y;
    }
}

// One more line: its number, and its body if it is a marked end.
fn add_body(
    alloc: Global,
    subject: &Subject,
    lines: &[Line],
    marks: &[bool],
    made: &mut Made,
    k: usize,
) -> Result<(), AllocError>
    requires { k < length lines.now }
    ensures { OnOk result (IsOneMore subject.now lines.now marks.now k made.old.numbers.items made.old.bodies.items made.new.numbers.items made.new.bodies.items) }
{
    let x = line_at(lines, k);
    let Some(thrown) = end_thrown(x.goal) else {
        made.numbers.push(0)?;
        return Ok(());
    };
    if !is_marked(marks, k) {
        made.numbers.push(0)?;
        return Ok(());
    }
    let number = made.bodies.len();
    if number > 4_294_967_295 {
        return Err(AllocError);
    }
    let steps = make_path(alloc, subject, lines, &made.numbers, k, x)?;
    made.bodies.push(BodyPath {
        method: x.method,
        entry: x.entry,
        thrown,
        exit: x.status,
        steps,
    })?;
    made.numbers.push(number as u32)?;
    Ok(())
}

/// The bodies of the marked ends, in the order of their lines.
pub fn make_bodies(
    alloc: Global,
    subject: &Subject,
    lines: &[Line],
    marks: &[bool],
) -> Result<Made, AllocError>
    ensures { IfOk result (λ made. AreMade subject.now lines.now marks.now made.numbers.items made.bodies.items (length lines.now)) }
{
    let mut made = Made {
        bodies: Vec::new(alloc),
        numbers: Vec::new(alloc),
    };
    for k in 0..lines.len() {
        add_body(alloc, subject, lines, marks, &mut made, k)?;
    }
    Ok(made)
}
