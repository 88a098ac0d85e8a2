//! What is checked: a lock field of a subject, by its part of a certificate.
ghost use Rattle.std.specs.Prelude.{◌≡◌, ◌<◌, ℕ, true, length, Some};
ghost use Rattle.app_model.specs.declared.component.Edge.{Edge};
ghost use Rattle.ns_base.specs.declared.rows.MethodNo.{MethodNo};
ghost use Rattle.ns_base.specs.declared.rows.ComponentNo.{ComponentNo};
ghost use Rattle.app_model.specs.Components.{callback_at, edge_at, exits_at};
ghost use Rattle.app_model.specs.Facts.{View};
ghost use Rattle.app_model.specs.Masks.{in_mask};
ghost use Rattle.app_model.specs.Subject.{IsEnterable, is_reached, answers_at};
ghost use Rattle.app_model.specs.Words.{code_len};
ghost use Rattle.flow_model.specs.Rules as rules;
ghost use Rattle.cert_facts.specs.Cases.{IsCase, IsEntry, set_of};
ghost use Rattle.cert_facts.specs.Rows.{HasEntry, AreRising};

use crate::rows::{is_rising, rows_of_entry, rows_of_state, view_mask};
use app_model::{Edge, Subject};
use certificate::{BodyRow, LockPart, ViewRow};
use component_list::{edge, edge_count};
use ns_base::{ComponentNo, LockNo, MethodNo};
use std::marker::Model;

/// A lock field of a subject, and its part of a certificate, whose rows fit it. Where the rows rise they are searched by
/// halves.
#[derive(Drop)]
pub struct Task<'a> {
    subject: &'a Subject,
    lock: LockNo,
    part: &'a LockPart,
    rising: bool,
}

impl<'a> Model for Task<'a> {
    ghost use Rattle.std.specs.Prelude.{◌≡◌, true};
    ghost use Rattle.cert_facts.specs.Cases.{Case, IsCase};
    ghost use Rattle.cert_facts.specs.Rows.{AreRising};

    ghost Value = { Case };

    ghost view = { λ t. record { subject = t.subject.now; lock = t.lock.0; part = t.part.now } };

    ghost invariant = { λ t. IsCase (record { subject = t.subject.now; lock = t.lock.0; part = t.part.now }) × (t.rising ≡ true → AreRising t.part.now) };
}

impl<'a> Task<'a> {
    pub fn new(subject: &'a Subject, lock: LockNo, part: &'a LockPart) -> Task<'a>
        requires { IsCase (record { subject = subject.now; lock = lock.0; part = part.now }) }
        ensures { result ≡ record { subject = subject.now; lock = lock.0; part = part.now } }
    {
        let rising = is_rising(&part.views) && is_rising(&part.bodies);
        Task {
            subject,
            lock,
            part,
            rising,
        }
    }

    /// What holds of each task.
    pub fn told(&self)
        ensures { IsCase self.now }
    {
        let _ = &self.rising;
    }

    /// The statuses that the component may have in a state.
    pub fn view(&self, component: ComponentNo, state: u8) -> u8
        ensures { (s : ℕ) → in_mask result s ≡ set_of self.now (View component.0 state s) }
    {
        let part = self.part;
        let rows = rows_of_state(&part.views, self.rising, component.0, state);
        view_mask(rows, component.0, state)
    }

    /// The rows that tell of a method that was entered at a status.
    pub fn bodies(&self, method: MethodNo, status: u8) -> &[BodyRow]
        ensures { HasEntry self.now.part.bodies result.now method.0 status }
    {
        let part = self.part;
        rows_of_entry(&part.bodies, self.rising, method.0, status)
    }

    pub fn subject(&self) -> &Subject
        ensures { result.now ≡ self.now.subject }
    {
        self.subject
    }

    pub fn lock(&self) -> LockNo
        ensures { result.0 ≡ self.now.lock }
    {
        self.lock
    }

    pub fn method_count(&self) -> u32
        ensures { result ≡ length self.now.subject.app.methods }
    {
        let subject = self.subject;
        subject.app.method_count()
    }

    pub fn component_count(&self) -> u32
        ensures { result ≡ length self.now.subject.list }
    {
        let subject = self.subject;
        subject.told();
        subject.list.rows.len() as u32
    }

    /// An edge of a component, from 0; none from the count on.
    #[tactic(auto, unfolding(app_model::specs::Components::edge_at))]
    pub fn edge(&self, component: ComponentNo, number: u32) -> Option<Edge>
        ensures { result ≡ edge_at self.now.subject.list component.0 number }
    {
        let subject = self.subject;
        match subject.list.rows.get(component.0 as usize) {
            Some(row) => edge(row.kind, number),
            None => None,
        }
    }

    /// A number above those of all edges of a component.
    #[tactic(auto, using(crate::proofs::Lifecycles::edge_within), unfolding(app_model::specs::Components::edge_at))]
    pub fn edge_count(&self, component: ComponentNo) -> u32
        ensures { (e : ℕ) (edge : Edge) → edge_at self.now.subject.list component.0 e ≡ Some edge → e < result }
    {
        let subject = self.subject;
        match subject.list.rows.get(component.0 as usize) {
            Some(row) => edge_count(row.kind),
            None => 0,
        }
    }

    /// Whether the rows rise.
    pub fn rises(&self) -> bool
        ensures { result ≡ true → AreRising self.now.part }
    {
        self.rising
    }

    /// The rows of methods.
    pub fn rows(&self) -> &[BodyRow]
        ensures { result.now ≡ self.now.part.bodies }
    {
        let part = self.part;
        &part.bodies
    }

    /// The policy exits of a component, as a mask over its callbacks.
    #[tactic(auto, unfolding(app_model::specs::Components::exits_at))]
    pub fn exits(&self, component: ComponentNo) -> u8
        requires { component.0 < length self.now.subject.list }
        ensures { result ≡ exits_at self.now.subject.list component.0 }
    {
        let subject = self.subject;
        subject.list.rows[component.0 as usize].exits
    }
}
