//! Who answers the masks of the flow rules, one status at a time.
ghost use Rattle.std.specs.Prelude.{◌≡◌, ◌<◌, ℕ, length};
ghost use Rattle.app_model.specs.Subject.{SubjectParts, slot_count};
ghost use Rattle.app_model.specs.Words.{code_len};
ghost use Rattle.flow_model.specs.Rows.{count_after};
ghost use Rattle.flow_model.specs.Subject.{Masks, status_masks};

use crate::instruction;
use app_model::Subject;
use ns_base::{LockNo, MethodNo};
use std::marker::Model;

/// Masks of a subject and a lock, and a count of how often they were asked. No call changes a mask. The count ends at the
/// largest `u64`.
pub trait Rows {
    /// With which statuses each instruction leads on, and with which it throws.
    ghost masks: { Self → SubjectParts → ℕ → Masks };

    /// How often a mask was asked.
    ghost count: { Self → ℕ };

    /// How often a mask was asked.
    fn asked(&self) -> u64
        ensures { result ≡ count self.now };

    /// The statuses, as a mask, with which an instruction leads to its successor number `to` from a status.
    fn pass(
        &mut self,
        subject: &Subject,
        lock: LockNo,
        method: MethodNo,
        index: u32,
        to: u32,
        status: u8,
    ) -> u8
        requires lock { lock.0 < slot_count subject.now }
        requires method { method.0 < length subject.now.app.methods }
        requires index { index < code_len subject.now.app method.0 }
        requires status { status < 8 }
        ensures mask { result ≡ (masks self.old subject.now lock.0).passes method.0 index to status }
        ensures same { masks self.new ≡ masks self.old }
        ensures count { count self.new ≡ count_after (count self.old) };

    /// The statuses, as a mask, with which an instruction itself throws from a status.
    fn throws(
        &mut self,
        subject: &Subject,
        lock: LockNo,
        method: MethodNo,
        index: u32,
        status: u8,
    ) -> u8
        requires lock { lock.0 < slot_count subject.now }
        requires method { method.0 < length subject.now.app.methods }
        requires index { index < code_len subject.now.app method.0 }
        requires status { status < 8 }
        ensures mask { result ≡ (masks self.old subject.now lock.0).throws method.0 index status }
        ensures same { masks self.new ≡ masks self.old }
        ensures count { count self.new ≡ count_after (count self.old) };
}

/// The masks of the status rules. Contracts see how often they were asked.
#[derive(Drop)]
pub struct StatusRows {
    steps: u64,
}

impl Model for StatusRows {
    ghost use Rattle.std.specs.Prelude.{ℕ};

    ghost Value = { ℕ };

    ghost view = { λ rows. rows.steps };
}

impl StatusRows {
    /// Nothing was asked yet.
    pub fn new() -> StatusRows
        ensures { result ≡ 0 }
    {
        StatusRows { steps: 0 }
    }
}

impl Rows for StatusRows {
    ghost masks = { λ rows x l. status_masks x l };

    ghost count = { λ rows. rows };

    fn asked(&self) -> u64 {
        self.steps
    }

    fn pass(
        &mut self,
        subject: &Subject,
        lock: LockNo,
        method: MethodNo,
        index: u32,
        to: u32,
        status: u8,
    ) -> u8 {
        self.steps = self.steps.saturating_add(1);
        instruction::pass(subject, lock, method, index, to, status)
    }

    fn throws(
        &mut self,
        subject: &Subject,
        lock: LockNo,
        method: MethodNo,
        index: u32,
        status: u8,
    ) -> u8 {
        self.steps = self.steps.saturating_add(1);
        instruction::throws(subject, lock, method, index, status)
    }
}
