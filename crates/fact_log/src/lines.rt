//! The test of a line, and where the edges of lifecycles carry by what lines show.
ghost use Rattle.std.specs.Prelude.{◌≡◌, ◌<◌, ◌↔◌, ◌∷◌, [], IsTrue, Some, length, option_map, slice_get};
ghost use Rattle.app_model.specs.Components.{edge_at};
ghost use Rattle.app_model.specs.Facts.{At, Ret};
ghost use Rattle.app_model.specs.Subject.{IsSubject};
ghost use Rattle.app_model.specs.Words.{code_len};
ghost use Rattle.flow_model.specs.Rules.{Carries};
ghost use Rattle.report_path.specs.declared.goal.Goal.TheVariants.{Before};
ghost use Rattle.report_path.specs.Lookups.{Has};
ghost use Rattle.report_path.specs.Paths.{Follows};
ghost use Rattle.report_path.specs.Tests.{Shows, end_at, fact_at};
ghost use Rattle.report_path.specs.Views.{Moves};
ghost use Rattle.fact_log.specs.Logs.{IsLineBy, LeadsOn, end_in, end_of_line};
ghost use Rattle.fact_log.specs.Work.{case_at};

use crate::log::{Line, Why};
use app_model::{Edge, Subject};
use ns_base::{LockNo, MethodNo};
use report_path::{Carrier, Edges, End, Goal, Spot, ViewStep, stays};
use std::marker::Model;

/// A lock field of a subject, and lines that may be cited; and the number of the successor that is tried first.
#[derive(Drop)]
pub struct Cited<'a> {
    edges: Edges<'a>,
    lines: &'a [Line],
    near: u32,
}

impl<'a> Model for Cited<'a> {
    ghost use Rattle.fact_log.specs.Work.{Lines};

    ghost Value = { Lines };

    ghost view = { λ t. record { subject = t.edges.subject.now; lock = t.edges.lock.0; lines = t.lines.now } };
}

/// The line of that number.
pub fn line_at(lines: &[Line], number: u32) -> Option<Line>
    ensures { result ≡ slice_get lines.now number }
{
    lines.get(number as usize).copied()
}

/// What a line shows where it is cited.
fn line_end(line: Line) -> Option<End>
    ensures { option_map (λ b. end_at b ∷ []) result ≡ end_of_line line }
{
    match line.goal {
        Goal::Before(_) => None,
        Goal::Returned => Some(End {
            method: line.method,
            entry: line.entry,
            thrown: false,
            exit: line.status,
        }),
        Goal::Thrown => Some(End {
            method: line.method,
            entry: line.entry,
            thrown: true,
            exit: line.status,
        }),
    }
}

fn end_number(lines: &[Line], number: u32) -> Option<End>
    ensures { option_map (λ b. end_at b ∷ []) result ≡ end_in lines.now (Some number) }
{
    match line_at(lines, number) {
        Some(line) => line_end(line),
        None => None,
    }
}

/// Whether a method has an instruction.
pub fn has_place(subject: &Subject, method: u32, index: u32) -> bool
    ensures { IsTrue result ↔ ((method < length subject.now.app.methods) × (index < code_len subject.now.app method)) }
{
    if method >= subject.app.method_count() {
        return false;
    }
    index < subject.app.code_len(MethodNo(method))
}

// Whether an instruction leads there, by the end that is cited.
fn follows(spot: &Spot, near: u32, lines: &[Line], end: Option<u32>, line: Line) -> bool
    ensures { IsTrue result ↔ Has (end_in lines.now end) (λ ends. Follows spot.now.subject spot.now.lock (At spot.now.method line.entry spot.now.index spot.now.status ∷ ends) (fact_at line.goal spot.now.method line.entry line.status)) }
{
    let Some(number) = end else {
        return spot.leads_near(near, line.goal, line.status);
    };
    match end_number(lines, number) {
        Some(end) => spot.leads_by(end, line.goal, line.status),
        None => false,
    }
}

fn leads_at(cited: &Cited, end: Option<u32>, line: Line, from: Line, index: u32) -> bool
    requires { from.status < 8 }
    ensures { IsTrue result ↔ Has (end_in cited.now.lines end) (λ ends. Follows cited.now.subject cited.now.lock (At from.method line.entry index from.status ∷ ends) (fact_at line.goal from.method line.entry line.status)) }
{
    let subject = cited.edges.subject;
    subject.told();
    if !has_place(subject, from.method, index) {
        return false;
    }
    let method = MethodNo(from.method);
    let spot = Spot::new(subject, cited.edges.lock, method, index, from.status);
    follows(&spot, cited.near, cited.lines, end, line)
}

fn leads_on(cited: &Cited, end: Option<u32>, line: Line, from: Line) -> bool
    ensures { IsTrue result ↔ LeadsOn cited.now.subject cited.now.lock cited.now.lines end line from }
{
    if from.method != line.method {
        return false;
    }
    if from.entry != line.entry {
        return false;
    }
    if from.status >= 8 {
        return false;
    }
    match from.goal {
        Goal::Before(index) => leads_at(cited, end, line, from, index),
        Goal::Returned | Goal::Thrown => false,
    }
}

fn is_led(cited: &Cited, line: Line, from: u32, end: Option<u32>) -> bool
    ensures { IsTrue result ↔ Has (slice_get cited.now.lines from) (LeadsOn cited.now.subject cited.now.lock cited.now.lines end line) }
{
    match line_at(cited.lines, from) {
        Some(from) => leads_on(cited, end, line, from),
        None => false,
    }
}

fn is_entry(line: Line) -> bool
    ensures { IsTrue result ↔ ((line.goal ≡ Before 0) × (line.status ≡ line.entry)) }
{
    match line.goal {
        Goal::Before(0) => line.status == line.entry,
        Goal::Before(_) => false,
        Goal::Returned | Goal::Thrown => false,
    }
}

/// Whether a line follows from those before it.
pub fn is_line(cited: &Cited, line: Line) -> bool
    ensures { IsTrue result ↔ IsLineBy cited.now.subject cited.now.lock cited.now.lines line line.why }
{
    match line.why {
        Why::Entered => is_entry(line),
        Why::Led { from, end } => is_led(cited, line, from, end),
    }
}

impl<'a> Cited<'a> {
    pub fn new(subject: &'a Subject, lock: LockNo, lines: &'a [Line], near: u32) -> Cited<'a>
        ensures { result ≡ record { subject = subject.now; lock = lock.0; lines = lines.now } }
    {
        Cited {
            edges: Edges { subject, lock },
            lines,
            near,
        }
    }

    // Whether the cited line shows that a method returns.
    fn shows(&self, body: Option<u32>, method: u32, entry: u8, exit: u8) -> bool
        ensures { IsTrue result ↔ Shows (end_in self.now.lines) body (Ret method entry exit) }
    {
        let Some(number) = body else {
            return false;
        };
        match line_at(self.lines, number) {
            Some(line) => is_return(line, method, entry, exit),
            None => false,
        }
    }

    fn carries(&self, view: ViewStep, edge: Edge, body: Option<u32>, status: u8) -> bool
        ensures { IsTrue result ↔ Has (end_in self.now.lines body) (λ ends. Carries self.now.subject self.now.lock view.component edge view.status status ends) }
    {
        let entry = self.edges.enter(view.component, edge, view.status);
        match self.edges.callback(view.component, edge) {
            Some(method) => self.shows(body, method, entry, status),
            None => stays(body, entry, status),
        }
    }
}

impl<'a> Carrier for Cited<'a> {
    ghost case = { λ t. case_at t };

    fn component_count(&self) -> usize
        ensures { result ≡ length self.now.subject.list }
    {
        self.edges.component_count()
    }

    fn edge(&self, component: u32, number: u32) -> Option<Edge>
        ensures { result ≡ edge_at self.now.subject.list component number }
    {
        self.edges.edge(component, number)
    }

    fn moves(&self, view: ViewStep, edge: Edge, body: Option<u32>, status: u8) -> bool
        ensures { IsTrue result ↔ Moves (case_at self.now) view edge body status }
    {
        if edge.from != view.state {
            return false;
        }
        self.carries(view, edge, body, status)
    }
}

fn is_return(line: Line, method: u32, entry: u8, exit: u8) -> bool
    ensures { IsTrue result ↔ (end_of_line line ≡ Some (Ret method entry exit ∷ [])) }
{
    match line.goal {
        Goal::Returned => line.method == method && line.entry == entry && line.status == exit,
        Goal::Before(_) | Goal::Thrown => false,
    }
}
