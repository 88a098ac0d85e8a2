//! What may be added to a log: a search that tries all reasons for each fact that is missing. Where none is missing it takes one
//! look at each word.
ghost use Rattle.std.specs.Prelude.{◌≡◌, ◌<◌, ℕ, IfOk, IfSome, None, OnOk, Option, Some, false, length, true};
ghost use Rattle.solution.specs.Facts.{facts_room};
ghost use Rattle.report_path.specs.declared.goal.Goal.{Goal as GoalOf};
ghost use Rattle.report_path.specs.declared.report.By.{By as ByOf};
ghost use Rattle.report_path.specs.declared.report.ViewStep.{ViewStep as StepOf};
ghost use Rattle.fact_log.specs.declared.log.Why.{Why as WhyOf};
ghost use Rattle.fact_log.specs.declared.log.Line.{Line as LineOf};
ghost use Rattle.fact_log.specs.Work.{IsNewLine, IsNewView, Keeps, NoneIs, NothingNew};
ghost use Rattle.fact_log.specs.Work as parts;

use crate::log::{Line, Why};
use crate::work::Work;
use report_path::{By, Goal, ViewStep};
use std::alloc::AllocError;

/// Lifecycles have fewer edges.
pub const EDGES: u32 = 16;

pub fn moved_by(first: Option<u32>, mover: u32, edge: u32, body: Option<u32>) -> By
    ensures { result ≡ parts.moved_by first mover edge body }
{
    match (first, body) {
        (None, None) => By::Outside { view: mover, edge },
        (None, Some(body)) => By::Own {
            view: mover,
            edge,
            body,
        },
        (Some(view), _) => By::Other {
            view,
            mover,
            edge,
            body,
        },
    }
}

impl<'a> Work<'a> {
    pub fn line_count(&self) -> u32
        ensures { result ≡ length self.now.lines }
    {
        self.told();
        self.lines.len() as u32
    }

    pub fn view_count(&self) -> u32
        ensures { result ≡ length self.now.views }
    {
        self.told();
        self.views.len() as u32
    }

    fn try_line(&self, line: Line) -> Option<Line>
        ensures some { IfSome result (IsNewLine self.now) }
        ensures none { NoneIs result (¬ IsNewLine self.now line) }
    {
        if self.is_new_line(line, 0) {
            Some(line)
        } else {
            None
        }
    }

    fn led_by(&self, line: Line, from: u32) -> Option<Line>
        ensures some { IfSome result (IsNewLine self.now) }
        ensures none { NoneIs result ((end : Option ℕ) → ¬ IsNewLine self.now (parts.led line from end)) }
    {
        let end = None;
        let why = Why::Led { from, end };
        if let Some(found) = self.try_line(Line { why, ..line }) {
            return Some(found);
        }
        for number in 0..self.line_count() {
            let end = Some(number);
            let why = Why::Led { from, end };
            if let Some(found) = self.try_line(Line { why, ..line }) {
                return Some(found);
            }
        }
        None
    }

    fn find_why(&self, line: Line) -> Option<Line>
        ensures some { IfSome result (IsNewLine self.now) }
        ensures none { NoneIs result ((why : WhyOf) → ¬ IsNewLine self.now (parts.line line.method line.entry line.goal line.status why)) }
    {
        let why = Why::Entered;
        if let Some(found) = self.try_line(Line { why, ..line }) {
            return Some(found);
        }
        for from in 0..self.line_count() {
            if let Some(found) = self.led_by(line, from) {
                return Some(found);
            }
        }
        None
    }

    fn find_status(&self, method: u32, goal: Goal, entry: u8) -> Option<Line>
        ensures some { IfSome result (IsNewLine self.now) }
        ensures none { NoneIs result ((s : ℕ) (why : WhyOf) → ¬ IsNewLine self.now (parts.line method entry goal s why)) }
    {
        for status in 0..8u8 {
            let why = Why::Entered;
            let line = Line {
                method,
                entry,
                goal,
                status,
                why,
            };
            if let Some(found) = self.find_why(line) {
                return Some(found);
            }
        }
        None
    }

    fn find_entry(&self, method: u32, goal: Goal) -> Option<Line>
        ensures some { IfSome result (IsNewLine self.now) }
        ensures none { NoneIs result ((e s : ℕ) (why : WhyOf) → ¬ IsNewLine self.now (parts.line method e goal s why)) }
    {
        if self.missing(method, goal) == 0 {
            return None;
        }
        for entry in 0..8u8 {
            if let Some(found) = self.find_status(method, goal, entry) {
                return Some(found);
            }
        }
        None
    }

    fn find_goal(&self, method: u32) -> Option<Line>
        requires { method < length self.now.subject.app.methods }
        ensures some { IfSome result (IsNewLine self.now) }
        ensures none { NoneIs result ((goal : GoalOf) (e s : ℕ) (why : WhyOf) → ¬ IsNewLine self.now (parts.line method e goal s why)) }
    {
        if let Some(found) = self.find_entry(method, Goal::Returned) {
            return Some(found);
        }
        if let Some(found) = self.find_entry(method, Goal::Thrown) {
            return Some(found);
        }
        self.told();
        for index in 0..self.place_count(method) {
            if let Some(found) = self.find_entry(method, Goal::Before(index)) {
                return Some(found);
            }
        }
        None
    }

    fn find_line(&self) -> Option<Line>
        ensures some { IfSome result (IsNewLine self.now) }
        ensures none { NoneIs result ((x : LineOf) → ¬ IsNewLine self.now x) }
    {
        self.told();
        for method in 0..self.method_count() {
            if let Some(found) = self.find_goal(method) {
                return Some(found);
            }
        }
        None
    }

    fn try_view(&self, view: ViewStep) -> Option<ViewStep>
        ensures some { IfSome result (IsNewView self.now) }
        ensures none { NoneIs result (¬ IsNewView self.now view) }
    {
        if self.is_new_view(view) {
            Some(view)
        } else {
            None
        }
    }

    fn find_body(
        &self,
        view: ViewStep,
        first: Option<u32>,
        mover: u32,
        edge: u32,
    ) -> Option<ViewStep>
        ensures some { IfSome result (IsNewView self.now) }
        ensures none { NoneIs result ((body : Option ℕ) → ¬ IsNewView self.now (parts.moved view first mover edge body)) }
    {
        let by = moved_by(first, mover, edge, None);
        if let Some(found) = self.try_view(ViewStep { by, ..view }) {
            return Some(found);
        }
        for number in 0..self.line_count() {
            let by = moved_by(first, mover, edge, Some(number));
            if let Some(found) = self.try_view(ViewStep { by, ..view }) {
                return Some(found);
            }
        }
        None
    }

    fn find_edge(&self, view: ViewStep, first: Option<u32>, mover: u32) -> Option<ViewStep>
        ensures some { IfSome result (IsNewView self.now) }
        ensures none { NoneIs result ((e : ℕ) (body : Option ℕ) → ¬ IsNewView self.now (parts.moved view first mover e body)) }
    {
        for edge in 0..EDGES {
            if let Some(found) = self.find_body(view, first, mover, edge) {
                return Some(found);
            }
        }
        None
    }

    fn find_mover(&self, view: ViewStep, first: Option<u32>) -> Option<ViewStep>
        ensures some { IfSome result (IsNewView self.now) }
        ensures none { NoneIs result ((mover e : ℕ) (body : Option ℕ) → ¬ IsNewView self.now (parts.moved view first mover e body)) }
    {
        for mover in 0..self.view_count() {
            if let Some(found) = self.find_edge(view, first, mover) {
                return Some(found);
            }
        }
        None
    }

    fn find_by(&self, view: ViewStep) -> Option<ViewStep>
        ensures some { IfSome result (IsNewView self.now) }
        ensures none { NoneIs result ((by : ByOf) → ¬ IsNewView self.now (parts.view view.component view.state view.status by)) }
    {
        let by = By::Start;
        if let Some(found) = self.try_view(ViewStep { by, ..view }) {
            return Some(found);
        }
        if let Some(found) = self.find_mover(view, None) {
            return Some(found);
        }
        for first in 0..self.view_count() {
            if let Some(found) = self.find_mover(view, Some(first)) {
                return Some(found);
            }
        }
        None
    }

    fn find_seen(&self, component: u32, state: u8) -> Option<ViewStep>
        ensures some { IfSome result (IsNewView self.now) }
        ensures none { NoneIs result ((s : ℕ) (by : ByOf) → ¬ IsNewView self.now (parts.view component state s by)) }
    {
        for status in 0..8u8 {
            let by = By::Start;
            let view = ViewStep {
                component,
                state,
                status,
                by,
            };
            if let Some(found) = self.find_by(view) {
                return Some(found);
            }
        }
        None
    }

    fn find_state(&self, component: u32) -> Option<ViewStep>
        ensures some { IfSome result (IsNewView self.now) }
        ensures none { NoneIs result ((q s : ℕ) (by : ByOf) → ¬ IsNewView self.now (parts.view component q s by)) }
    {
        if self.missing_views(component) == 0 {
            return None;
        }
        for state in 0..8u8 {
            if let Some(found) = self.find_seen(component, state) {
                return Some(found);
            }
        }
        None
    }

    fn find_view(&self) -> Option<ViewStep>
        ensures some { IfSome result (IsNewView self.now) }
        ensures none { NoneIs result ((v : StepOf) → ¬ IsNewView self.now v) }
    {
        self.told();
        for component in 0..self.component_count() {
            if let Some(found) = self.find_state(component) {
                return Some(found);
            }
        }
        None
    }

    // One piece more, where there is one.
    fn add_missing(&mut self) -> Result<bool, AllocError>
        ensures keeps { Keeps self.old self.new }
        ensures falls { IfOk result (λ more. more ≡ true → facts_room self.new.known < facts_room self.old.known) }
        ensures done { IfOk result (λ more. more ≡ false → NothingNew self.new) }
    {
        if let Some(line) = self.find_line() {
            self.push_line(line, 0)?;
            return Ok(true);
        }
        if let Some(view) = self.find_view() {
            self.push_view(view)?;
            return Ok(true);
        }
        Ok(false)
    }

    /// Adds pieces until none can be added.
    pub fn close(&mut self) -> Result<(), AllocError>
        ensures keeps { Keeps self.old self.new }
        ensures done { OnOk result (NothingNew self.new) }
    {
        loop {
            if !self.add_missing()? {
                return Ok(());
            }
        }
    }
}
