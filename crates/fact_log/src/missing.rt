//! Which facts of a solution are not known yet.
ghost use Rattle.std.specs.Prelude.{◌≡◌, ◌<◌, ◌↔◌, ◌&&◌, ℕ, IsTrue, length, not};
ghost use Rattle.app_model.specs.Facts.{At, Exc, Ret, View};
ghost use Rattle.solution.specs.Facts.{place_count};
ghost use Rattle.solution.specs.Table.{row_len};
ghost use Rattle.report_path.specs.Tests.{fact_at};
ghost use Rattle.report_path.specs.Views.{fact_of};
ghost use Rattle.fact_log.specs.Logs.{line_fact};
ghost use Rattle.solution.specs.Words.{has};
ghost use Rattle.fact_log.specs.Work.{AreMissing, Came, HasRoom, IsMissing, IsWork};

use crate::log::Line;
use crate::work::Work;
use app_model::Subject;
use flow_model::has_status;
use ns_base::{ComponentNo, MethodNo};
use report_path::{Goal, ViewStep};
use solution::{Solution, one, row_of, without};

// Whether an instruction has facts.
#[tactic(auto, unfolding(solution::specs::Facts::place_count))]
fn has_facts(subject: &Subject, method: u32, index: u32) -> bool
    ensures { IsTrue result ↔ ((method < length subject.now.app.methods) × (index < place_count subject.now method)) }
{
    if method >= subject.app.method_count() {
        return false;
    }
    if !subject.reaches(MethodNo(method)) {
        return false;
    }
    index < subject.app.code_len(MethodNo(method))
}

// Whether a row of a word has a status.
fn has_bit(word: u64, row: u8, status: u8) -> bool
    ensures { result ≡ has word row status }
{
    if row >= 8 {
        return false;
    }
    if status >= 8 {
        return false;
    }
    has_status(row_of(word, row), status as usize)
}

impl<'a> Work<'a> {
    fn missing_at(&self, method: u32, index: u32) -> u64
        ensures { AreMissing self.now (λ e s. At method e index s) result }
    {
        self.told();
        if !has_facts(self.subject, method, index) {
            return 0;
        }
        let at = MethodNo(method);
        without(
            self.solution.at_word(at, index),
            self.known.at_word(at, index),
        )
    }

    pub fn method_count(&self) -> u32
        ensures { result ≡ length self.now.subject.app.methods }
    {
        let subject = self.subject;
        subject.app.method_count()
    }

    /// How many instructions of a method have facts.
    #[tactic(auto, unfolding(solution::specs::Facts::place_count))]
    pub fn place_count(&self, method: u32) -> u32
        requires { method < length self.now.subject.app.methods }
        ensures { result ≡ place_count self.now.subject method }
    {
        let subject = self.subject;
        if !subject.reaches(MethodNo(method)) {
            return 0;
        }
        subject.app.code_len(MethodNo(method))
    }

    pub fn component_count(&self) -> u32
        ensures { result ≡ length self.now.subject.list }
    {
        let subject = self.subject;
        subject.told();
        subject.list.rows.len() as u32
    }

    fn missing_ret(&self, method: u32) -> u64
        ensures { AreMissing self.now (λ e s. Ret method e s) result }
    {
        self.told();
        if method >= self.method_count() {
            return 0;
        }
        let of = MethodNo(method);
        without(self.solution.ret_word(of), self.known.ret_word(of))
    }

    fn missing_exc(&self, method: u32) -> u64
        ensures { AreMissing self.now (λ e s. Exc method e s) result }
    {
        self.told();
        if method >= self.method_count() {
            return 0;
        }
        let of = MethodNo(method);
        without(self.solution.exc_word(of), self.known.exc_word(of))
    }

    /// The facts of a method that lead there, as a row for each entry status.
    pub fn missing(&self, method: u32, goal: Goal) -> u64
        ensures { AreMissing self.now (λ e s. fact_at goal method e s) result }
    {
        match goal {
            Goal::Before(index) => self.missing_at(method, index),
            Goal::Returned => self.missing_ret(method),
            Goal::Thrown => self.missing_exc(method),
        }
    }

    /// The states of a component, as a row for each of them.
    pub fn missing_views(&self, component: u32) -> u64
        ensures { AreMissing self.now (λ q s. View component q s) result }
    {
        self.told();
        if component >= self.component_count() {
            return 0;
        }
        let of = ComponentNo(component);
        without(self.solution.view_word(of), self.known.view_word(of))
    }

    pub fn is_missing(&self, line: Line) -> bool
        ensures { IsTrue result ↔ IsMissing self.now (line_fact line) }
    {
        has_bit(
            self.missing(line.method, line.goal),
            line.entry,
            line.status,
        )
    }

    pub fn is_unseen(&self, view: ViewStep) -> bool
        ensures { IsTrue result ↔ IsMissing self.now (fact_of view) }
    {
        has_bit(self.missing_views(view.component), view.state, view.status)
    }
}

/// The fact of a line comes to those that are known.
pub fn know_line(known: &mut Solution, line: Line)
    requires entry { line.entry < 8 }
    requires status { line.status < 8 }
    requires room { HasRoom known.old line.goal line.method }
    ensures { Came known.old (line_fact line) known.new }
{
    let of = MethodNo(line.method);
    let word = one(line.entry, line.status);
    match line.goal {
        Goal::Before(index) => known.join_at(of, index, word),
        Goal::Returned => known.join_ret(of, word),
        Goal::Thrown => known.join_exc(of, word),
    };
}

pub fn know_view(known: &mut Solution, view: ViewStep)
    requires state { view.state < 8 }
    requires status { view.status < 8 }
    requires component { view.component < row_len known.old.ends 2 }
    ensures { Came known.old (fact_of view) known.new }
{
    let word = one(view.state, view.status);
    known.join_view(ComponentNo(view.component), word);
}
