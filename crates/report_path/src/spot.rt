//! What an instruction leads to from a status.
ghost use Rattle.std.specs.Prelude.{◌≡◌, ◌<◌, ◌↔◌, Contains, IsTrue, length};
ghost use Rattle.app_model.specs.Masks.{in_mask};
ghost use Rattle.app_model.specs.Words.{code_len, handler_at, leaves_at, successor_at};
ghost use Rattle.flow_model.specs.Subject.{is_open, returns_at};
ghost use Rattle.app_model.specs.Subject.{callees_at};
ghost use Rattle.report_path.specs.Tests.{ByCall, ByItself, CaughtAt, ComesBack, ComesFrom, IsCalled, IsSpot, LeadsOn, PassesBy, PassesTo, ThrownTo, masks_of};

use crate::goal::Goal;
use crate::report::End;
use act_model::{Act, act_of};
use app_model::Subject;
use flow_model::{has_status, opens, pass, throws};
use ns_base::{LockNo, MethodNo};
use std::marker::Model;

/// An instruction of a method, at a status of a lock field.
#[derive(Drop)]
pub struct Spot<'a> {
    subject: &'a Subject,
    lock: LockNo,
    method: MethodNo,
    index: u32,
    status: u8,
}

impl<'a> Model for Spot<'a> {
    ghost use Rattle.report_path.specs.Tests as tests;

    ghost Value = { tests.Spot };

    ghost view = { λ t. record { subject = t.subject.now; lock = t.lock.0; method = t.method.0; index = t.index; status = t.status } };

    ghost invariant = { λ t. tests.IsSpot (record { subject = t.subject.now; lock = t.lock.0; method = t.method.0; index = t.index; status = t.status }) };
}

impl<'a> Spot<'a> {
    pub fn new(
        subject: &'a Subject,
        lock: LockNo,
        method: MethodNo,
        index: u32,
        status: u8,
    ) -> Spot<'a>
        requires method { method.0 < length subject.now.app.methods }
        requires index { index < code_len subject.now.app method.0 }
        requires status { status < 8 }
        ensures { result ≡ record { subject = subject.now; lock = lock.0; method = method.0; index = index; status = status } }
    {
        subject.told();
        Spot {
            subject,
            lock,
            method,
            index,
            status,
        }
    }

    /// What holds of each.
    pub fn told(&self)
        ensures { IsSpot self.now }
    {
        let _ = &self.index;
    }

    // Whether it goes on to an instruction with a status.
    fn passes_to(&self, to: u32, status: u8) -> bool
        ensures { IsTrue result ↔ PassesTo self.now to status }
    {
        self.told();
        for number in 0..u32::MAX {
            if self.successor(number).is_none() {
                return false;
            }
            if self.passes_by(to, status, number) {
                return true;
            }
        }
        false
    }

    // Whether it does by its successor of that number.
    fn passes_by(&self, to: u32, status: u8, number: u32) -> bool
        ensures { IsTrue result ↔ PassesBy self.now to status number }
    {
        let Some(next) = self.successor(number) else {
            return false;
        };
        next == to && self.passes(number, status)
    }

    fn passes(&self, number: u32, status: u8) -> bool
        ensures { result ≡ in_mask ((masks_of self.now).passes self.now.method self.now.index number self.now.status) status }
    {
        status < 8 && has_status(self.passing(number), status as usize)
    }

    fn throws(&self, status: u8) -> bool
        ensures { result ≡ in_mask ((masks_of self.now).throws self.now.method self.now.index self.now.status) status }
    {
        status < 8 && has_status(self.throwing(), status as usize)
    }

    /// The statuses with which it goes on by its successor of that number.
    pub fn passing(&self, number: u32) -> u8
        ensures { result ≡ (masks_of self.now).passes self.now.method self.now.index number self.now.status }
    {
        let subject = self.subject;
        pass(
            subject,
            self.lock,
            self.method,
            self.index,
            number,
            self.status,
        )
    }

    /// The statuses with which it throws.
    pub fn throwing(&self) -> u8
        ensures { result ≡ (masks_of self.now).throws self.now.method self.now.index self.now.status }
    {
        let subject = self.subject;
        throws(subject, self.lock, self.method, self.index, self.status)
    }

    pub fn successor(&self, number: u32) -> Option<u32>
        ensures { result ≡ successor_at self.now.subject.app self.now.method self.now.index number }
    {
        let subject = self.subject;
        subject.app.successor(self.method, self.index, number)
    }

    pub fn handler(&self, number: u32) -> Option<u32>
        ensures { result ≡ handler_at self.now.subject.app self.now.method self.now.index number }
    {
        let subject = self.subject;
        subject.app.handler(self.method, self.index, number)
    }

    /// Whether a throw can leave the method there.
    pub fn may_leave(&self) -> bool
        ensures { result ≡ leaves_at self.now.subject.app self.now.method self.now.index }
    {
        let subject = self.subject;
        subject.app.may_leave(self.method, self.index)
    }

    // Whether an instruction is one of its handlers.
    fn is_caught_at(&self, to: u32) -> bool
        ensures { IsTrue result ↔ CaughtAt self.now to }
    {
        self.told();
        for number in 0..u32::MAX {
            let Some(next) = self.handler(number) else {
                return false;
            };
            if next == to {
                return true;
            }
        }
        false
    }

    // Whether what is thrown here goes there.
    fn is_thrown_to(&self, goal: Goal) -> bool
        ensures { IsTrue result ↔ ThrownTo self.now goal }
    {
        match goal {
            Goal::Before(to) => self.is_caught_at(to),
            Goal::Returned => false,
            Goal::Thrown => self.may_leave(),
        }
    }

    pub fn returns(&self) -> bool
        ensures { result ≡ returns_at self.now.subject self.now.method self.now.index }
    {
        let subject = self.subject;
        matches!(
            act_of(&subject.app, self.method, self.index),
            Act::Return { .. }
        )
    }

    fn leads_on(&self, goal: Goal, status: u8) -> bool
        ensures { IsTrue result ↔ LeadsOn self.now goal status }
    {
        match goal {
            Goal::Before(to) => self.passes_to(to, status),
            Goal::Returned => self.returns() && self.status == status,
            Goal::Thrown => false,
        }
    }

    /// Whether it leads there with a status by itself.
    pub fn leads_itself(&self, goal: Goal, status: u8) -> bool
        ensures { IsTrue result ↔ ByItself self.now goal status }
    {
        self.leads_on(goal, status) || (self.throws(status) && self.is_thrown_to(goal))
    }

    // Whether it does by its successor of that number.
    fn leads_to(&self, number: u32, goal: Goal, status: u8) -> bool
        ensures { IsTrue result → ByItself self.now goal status }
    {
        match goal {
            Goal::Before(to) => self.passes_by(to, status, number),
            Goal::Returned | Goal::Thrown => false,
        }
    }

    /// The same, where the successor of that number is tried first: a switch may have many.
    pub fn leads_near(&self, number: u32, goal: Goal, status: u8) -> bool
        ensures { IsTrue result ↔ ByItself self.now goal status }
    {
        self.leads_to(number, goal, status) || self.leads_itself(goal, status)
    }

    // Whether it calls a method, which it enters at its status.
    fn calls(&self, method: u32) -> bool
        ensures { IsTrue result ↔ IsCalled self.now method }
    {
        if !self.is_open() {
            return false;
        }
        has_callee(self.callees(), method)
    }

    pub fn is_open(&self) -> bool
        ensures { result ≡ is_open self.now.subject self.now.lock self.now.method self.now.index self.now.status }
    {
        opens(
            self.subject,
            self.lock,
            self.method,
            self.index,
            self.status,
        )
    }

    pub fn callees(&self) -> &[MethodNo]
        ensures { result.now ≡ callees_at self.now.subject self.now.method self.now.index }
    {
        let subject = self.subject;
        subject.graph.callees(self.method, self.index)
    }

    fn comes_back(&self, goal: Goal) -> bool
        ensures { IsTrue result ↔ ComesBack self.now goal }
    {
        match goal {
            Goal::Before(to) => match self.successor(0) {
                Some(next) => next == to,
                None => false,
            },
            Goal::Returned | Goal::Thrown => false,
        }
    }

    fn comes_from(&self, thrown: bool, goal: Goal) -> bool
        ensures { IsTrue result ↔ ComesFrom self.now thrown goal }
    {
        if thrown {
            self.is_thrown_to(goal)
        } else {
            self.comes_back(goal)
        }
    }

    /// Whether it leads there with a status by a call, as the end of the method that is called shows.
    pub fn leads_by(&self, end: End, goal: Goal, status: u8) -> bool
        ensures { IsTrue result ↔ ByCall self.now end goal status }
    {
        if end.entry != self.status || end.exit != status {
            return false;
        }
        if !self.calls(end.method) {
            return false;
        }
        self.comes_from(end.thrown, goal)
    }
}

fn has_callee(callees: &[MethodNo], method: u32) -> bool
    ensures { IsTrue result ↔ Contains callees.now (record { 0 = method }) }
{
    for k in 0..callees.len() {
        if callees[k].0 == method {
            return true;
        }
    }
    false
}
