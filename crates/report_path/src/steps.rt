//! The bodies of a report: whether each step leads to the next, and the last one to the end.
ghost use Rattle.std.specs.Prelude.{◌≡◌, ◌<◌, ◌↔◌, ◌∷◌, ℕ, IsTrue, Some, length};
ghost use Rattle.app_model.specs.Facts.{At};
ghost use Rattle.app_model.specs.Subject.{IsSubject};
ghost use Rattle.report_path.specs.Lookups.{Has};
ghost use Rattle.report_path.specs.Paths.{Begins, Follows, GoesOn, IsBody, IsNext, IsPath, LeadsTo, cited_in, end_fact, end_of, index_at};
ghost use Rattle.report_path.specs.Tests.{end_at, fact_at};

use crate::goal::{Goal, end_goal};
use crate::places::index_of;
use crate::report::{BodyPath, End, Step};
use crate::spot::Spot;
use app_model::Subject;
use ns_base::{LockNo, MethodNo};
use std::marker::Model;

/// A method that was entered at a status, and the bodies that may be cited there.
#[derive(Drop)]
pub struct Entered<'a> {
    subject: &'a Subject,
    lock: LockNo,
    before: &'a [BodyPath],
    method: u32,
    status: u8,
}

impl<'a> Model for Entered<'a> {
    ghost use Rattle.report_path.specs.Paths.{Entry};

    ghost Value = { Entry };

    ghost view = { λ t. record { subject = t.subject.now; lock = t.lock.0; before = t.before.now; method = t.method; status = t.status } };
}

impl<'a> Entered<'a> {
    // Whether an instruction leads there with a status, by what is cited.
    fn follows(&self, spot: &Spot, cites: Option<u32>, goal: Goal, status: u8) -> bool
        ensures { IsTrue result ↔ Has (cited_in self.now.before cites) (λ ends. Follows spot.now.subject spot.now.lock (At spot.now.method self.now.status spot.now.index spot.now.status ∷ ends) (fact_at goal spot.now.method self.now.status status)) }
    {
        match cites {
            None => spot.leads_itself(goal, status),
            Some(number) => {
                let number = number as usize;
                if number >= self.before.len() {
                    return false;
                }
                spot.leads_by(end_of(&self.before[number]), goal, status)
            }
        }
    }

    // Whether a step leads there with a status.
    fn leads_to(&self, step: Step, goal: Goal, status: u8) -> bool
        ensures { IsTrue result ↔ LeadsTo self.now step (fact_at goal self.now.method self.now.status status) }
    {
        if step.status >= 8 {
            return false;
        }
        let subject = self.subject;
        let Some(index) = index_of(&subject.app, self.method, step.pc) else {
            return false;
        };
        let spot = Spot::new(
            subject,
            self.lock,
            MethodNo(self.method),
            index,
            step.status,
        );
        self.follows(&spot, step.cites, goal, status)
    }

    fn is_next(&self, step: Step, next: Step) -> bool
        ensures { IsTrue result ↔ IsNext self.now step next }
    {
        let subject = self.subject;
        match index_of(&subject.app, self.method, next.pc) {
            Some(index) => self.leads_to(step, Goal::Before(index), next.status),
            None => false,
        }
    }

    // Whether the method's first instruction stands there.
    fn is_entry(&self, pc: u32) -> bool
        ensures { IsTrue result ↔ (index_at self.now.subject.app self.now.method pc ≡ Some 0) }
    {
        let subject = self.subject;
        match index_of(&subject.app, self.method, pc) {
            Some(index) => index == 0,
            None => false,
        }
    }

    fn begins(&self, steps: &[Step]) -> bool
        ensures { IsTrue result ↔ Begins self.now steps.now }
    {
        match steps {
            [] => false,
            [step, ..] => self.is_entry(step.pc) && step.status == self.status,
        }
    }

    // Whether the step of that number leads to the next one, or to the end where it is the last.
    fn goes_on(&self, steps: &[Step], thrown: bool, exit: u8, k: usize) -> bool
        requires { k < length steps.now }
        ensures { IsTrue result ↔ GoesOn self.now steps.now (end_fact thrown self.now.method self.now.status exit) k }
    {
        if k + 1 < steps.len() {
            self.is_next(steps[k], steps[k + 1])
        } else {
            self.leads_to(steps[k], end_goal(thrown), exit)
        }
    }

    fn go_on(&self, steps: &[Step], thrown: bool, exit: u8) -> bool
        ensures { IsTrue result ↔ ((k : ℕ) → k < length steps.now → GoesOn self.now steps.now (end_fact thrown self.now.method self.now.status exit) k) }
    {
        for k in 0..steps.len() {
            if !self.goes_on(steps, thrown, exit, k) {
                return false;
            }
        }
        true
    }

    fn is_path(&self, steps: &[Step], thrown: bool, exit: u8) -> bool
        ensures { IsTrue result ↔ IsPath self.now steps.now (end_fact thrown self.now.method self.now.status exit) }
    {
        if !self.begins(steps) {
            return false;
        }
        self.go_on(steps, thrown, exit)
    }
}

fn end_of(body: &BodyPath) -> End
    ensures { end_at result ≡ end_of body.now }
{
    End {
        method: body.method,
        entry: body.entry,
        thrown: body.thrown,
        exit: body.exit,
    }
}

/// Whether a body is valid, which may cite those before it.
pub fn is_body(subject: &Subject, lock: LockNo, before: &[BodyPath], body: &BodyPath) -> bool
    ensures { IsTrue result ↔ IsBody subject.now lock.0 before.now body.now }
{
    let entered = Entered {
        subject,
        lock,
        before,
        method: body.method,
        status: body.entry,
    };
    entered.is_path(&body.steps, body.thrown, body.exit)
}
