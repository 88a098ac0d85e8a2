//! An instruction of a method that was entered at a status, and what it does to the lock field.
ghost use Rattle.std.specs.Prelude.{◌≡◌, ◌<◌, true, Some, length};
ghost use Rattle.std.specs.List.{All};
ghost use Rattle.ns_base.specs.declared.rows.MethodNo.{MethodNo};
ghost use Rattle.app_model.specs.Subject.{IsEnterable, callees_at, outside_at};
ghost use Rattle.app_model.specs.Words.{code_len, successor_at, handler_at, leaves_at};
ghost use Rattle.flow_model.specs.Subject.{returns_at};
ghost use Rattle.cert_facts.specs.Cases.{IsSpot};
ghost use Rattle.cert_facts.specs.Entries.{is_own, opens, masks_of};

use crate::entered::Entered;
use act_model::{Act, act_of};
use flow_model::{TagsAt, is_open, is_own, pass_mask, throw_mask};
use ns_base::MethodNo;
use std::marker::Model;

/// An instruction of a method that was entered at a status, with what it does.
#[derive(Drop)]
pub struct Site<'a> {
    entered: &'a Entered<'a>,
    index: u32,
    act: Act,
}

impl<'a> Model for Site<'a> {
    ghost use Rattle.std.specs.Prelude.{◌≡◌, Some};
    ghost use Rattle.act_model.specs.Acts.{act_at};
    ghost use Rattle.cert_facts.specs.Cases.{Spot, IsSpot};

    ghost Value = { Spot };

    ghost view = { λ t. record { entry = t.entered.now; index = t.index } };

    ghost invariant = { λ t. IsSpot (record { entry = t.entered.now; index = t.index }) × (act_at t.entered.now.case.subject.app t.entered.now.method t.index ≡ Some t.act) };
}

impl<'a> Site<'a> {
    pub fn new(entered: &'a Entered<'a>, index: u32) -> Site<'a>
        requires { index < code_len entered.now.case.subject.app entered.now.method }
        ensures { result ≡ record { entry = entered.now; index = index } }
    {
        entered.told();
        let subject = entered.task().subject();
        Site {
            entered,
            index,
            act: act_of(&subject.app, entered.method(), index),
        }
    }

    /// What holds of it.
    pub fn told(&self)
        ensures { IsSpot self.now }
    {
        let _ = &self.index;
    }

    pub fn entered(&self) -> &Entered<'a>
        ensures { result.now ≡ self.now.entry }
    {
        self.entered
    }

    // The tags before it.
    fn tags(&self) -> TagsAt<'_>
        ensures table { result.table.now ≡ self.now.entry.case.subject.tags }
        ensures method { result.method.0 ≡ self.now.entry.method }
        ensures index { result.index ≡ self.now.index }
    {
        let entered = self.entered;
        let subject = entered.task().subject();
        TagsAt {
            table: &subject.tags,
            method: entered.method(),
            index: self.index,
        }
    }

    // Whether it may call what is outside the application.
    fn outside(&self) -> bool
        ensures { result ≡ outside_at self.now.entry.case.subject self.now.entry.method self.now.index }
    {
        let entered = self.entered;
        let subject = entered.task().subject();
        subject.graph.outside(entered.method(), self.index)
    }

    /// Where control can go, by number.
    pub fn successor(&self, number: u32) -> Option<u32>
        ensures { result ≡ successor_at self.now.entry.case.subject.app self.now.entry.method self.now.index number }
    {
        let entered = self.entered;
        let subject = entered.task().subject();
        subject.app.successor(entered.method(), self.index, number)
    }

    /// Where a throw can go, by number.
    pub fn handler(&self, number: u32) -> Option<u32>
        ensures { result ≡ handler_at self.now.entry.case.subject.app self.now.entry.method self.now.index number }
    {
        let entered = self.entered;
        let subject = entered.task().subject();
        subject.app.handler(entered.method(), self.index, number)
    }

    /// Whether a throw can leave the method here.
    pub fn leaves(&self) -> bool
        ensures { result ≡ leaves_at self.now.entry.case.subject.app self.now.entry.method self.now.index }
    {
        let entered = self.entered;
        let subject = entered.task().subject();
        subject.app.may_leave(entered.method(), self.index)
    }

    /// What it can call.
    pub fn callees(&self) -> &[MethodNo]
        ensures callees { result.now ≡ callees_at self.now.entry.case.subject self.now.entry.method self.now.index }
        ensures entered { All (λ (n : MethodNo). IsEnterable self.now.entry.case.subject n.0) result.now }
    {
        let entered = self.entered;
        entered.told();
        let subject = entered.task().subject();
        subject.callees(entered.method(), self.index)
    }

    pub fn returns(&self) -> bool
        ensures { result ≡ returns_at self.now.entry.case.subject self.now.entry.method self.now.index }
    {
        matches!(self.act, Act::Return { .. })
    }

    /// Whether it is a lock call on what the field holds, or a store to it.
    pub fn is_own(&self) -> bool
        ensures { result ≡ is_own self.now }
    {
        let lock = self.entered.task().lock();
        is_own(lock, &self.act, &self.tags())
    }

    /// The statuses with which it leads to its successor of that number.
    pub fn pass(&self, number: u32, status: u8) -> u8
        requires { status < 8 }
        ensures { result ≡ (masks_of self.now).passes self.now.entry.method self.now.index number status }
    {
        let lock = self.entered.task().lock();
        pass_mask(
            lock,
            &self.act,
            &self.tags(),
            self.outside(),
            number,
            status,
        )
    }

    /// The statuses with which it throws by itself.
    pub fn throws(&self, status: u8) -> u8
        requires { status < 8 }
        ensures { result ≡ (masks_of self.now).throws self.now.entry.method self.now.index status }
    {
        let lock = self.entered.task().lock();
        throw_mask(lock, &self.act, &self.tags(), self.outside(), status)
    }

    /// Whether its receiver lets a call pass at a status.
    pub fn opens(&self, status: u8) -> bool
        requires { status < 8 }
        ensures { result ≡ opens self.now status }
    {
        let lock = self.entered.task().lock();
        is_open(lock, &self.act, &self.tags(), status)
    }
}
