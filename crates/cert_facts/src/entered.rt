//! A method that was entered at a status.
ghost use Rattle.std.specs.Prelude.{◌≡◌, ◌<◌, ℕ, true, Some, length};
ghost use Rattle.app_model.specs.Masks.{in_mask};
ghost use Rattle.app_model.specs.Subject.{is_reached};
ghost use Rattle.app_model.specs.Words.{code_len, pc_at};
ghost use Rattle.cert_facts.specs.Cases.{IsEntry, set_of};
ghost use Rattle.cert_facts.specs.Rows.{fact_of};
ghost use Rattle.cert_facts.specs.Entries.{before, returned, thrown};

use crate::rows::body_mask;
use crate::task::Task;
use crate::which::Which;
use certificate::BodyRow;
use ns_base::MethodNo;
use std::marker::Model;

/// A method that was entered at a status, with the rows that tell of it.
#[derive(Drop)]
pub struct Entered<'a> {
    task: &'a Task<'a>,
    rows: &'a [BodyRow],
    method: MethodNo,
    status: u8,
}

impl<'a> Model for Entered<'a> {
    ghost use Rattle.cert_facts.specs.Cases.{Entry, IsEntry};
    ghost use Rattle.cert_facts.specs.Rows.{HasEntry};

    ghost Value = { Entry };

    ghost view = { λ t. record { case = t.task.now; method = t.method.0; status = t.status } };

    ghost invariant = { λ t. IsEntry (record { case = t.task.now; method = t.method.0; status = t.status }) × HasEntry t.task.now.part.bodies t.rows.now t.method.0 t.status };
}

impl<'a> Entered<'a> {
    pub fn new(task: &'a Task<'a>, method: MethodNo, status: u8) -> Entered<'a>
        requires method { method.0 < length task.now.subject.app.methods }
        requires reached { is_reached task.now.subject method.0 ≡ true }
        requires status { status < 8 }
        ensures { result ≡ record { case = task.now; method = method.0; status = status } }
    {
        task.told();
        Entered {
            task,
            rows: task.bodies(method, status),
            method,
            status,
        }
    }

    /// What holds of it.
    pub fn told(&self)
        ensures { IsEntry self.now }
    {
        let _ = &self.status;
    }

    pub fn task(&self) -> &Task<'a>
        ensures { result.now ≡ self.now.case }
    {
        self.task
    }

    pub fn method(&self) -> MethodNo
        ensures { result.0 ≡ self.now.method }
    {
        self.method
    }

    fn mask(&self, which: Which) -> u8
        ensures { (s : ℕ) → in_mask result s ≡ set_of self.now.case (fact_of which self.now.method self.now.status s) }
    {
        body_mask(self.rows, self.method.0, self.status, which)
    }

    /// The statuses before an instruction.
    pub fn before(&self, index: u32) -> u8
        ensures { (s : ℕ) → in_mask result s ≡ before self.now index s }
    {
        self.mask(Which::Before(index))
    }

    /// The statuses at which it returns.
    pub fn returned(&self) -> u8
        ensures { (s : ℕ) → in_mask result s ≡ returned self.now s }
    {
        self.mask(Which::Returned)
    }

    /// The statuses at which a throw leaves it.
    pub fn thrown(&self) -> u8
        ensures { (s : ℕ) → in_mask result s ≡ thrown self.now s }
    {
        self.mask(Which::Thrown)
    }

    pub fn code_len(&self) -> u32
        ensures { result ≡ code_len self.now.case.subject.app self.now.method }
    {
        let task = self.task;
        let subject = task.subject();
        subject.app.code_len(self.method)
    }

    pub fn pc(&self, index: u32) -> u32
        requires { index < code_len self.now.case.subject.app self.now.method }
        ensures { pc_at self.now.case.subject.app self.now.method index ≡ Some result }
    {
        let task = self.task;
        let subject = task.subject();
        subject.app.ins(self.method, index).0
    }
}
