//! What an instruction of a subject does to a lock field: with which statuses it goes on and throws, and whether it is
//! an own operation of the field.
ghost use Rattle.std.specs.Prelude.{◌≡◌, ◌<◌, length};
ghost use Rattle.app_model.specs.Subject.{row_at, outside_at};
ghost use Rattle.app_model.specs.Words.{code_len};
ghost use Rattle.flow_model.specs.Subject as spec;

use crate::passes::{is_open, is_own, pass_mask, throw_mask};
use act_model::{Row, act_of};
use app_model::{Subject, Tag, TagTable};
use ns_base::{LockNo, MethodNo};

/// The tags before an instruction.
#[derive(Clone, Copy)]
pub struct TagsAt<'a> {
    pub table: &'a TagTable,
    pub method: MethodNo,
    pub index: u32,
}

impl Row for TagsAt<'_> {
    ghost use Rattle.app_model.specs.TagTable as table;

    ghost tags = { λ at. table.row_at at.table.now at.method.0 at.index };

    #[tactic(auto, using(app_model::proofs::Cells::tag_past))]
    fn tag(&self, register: usize) -> Tag {
        if register < self.table.width(self.method) {
            self.table.tag(self.method, self.index, register as u32)
        } else {
            Tag::Bot
        }
    }

    #[tactic(auto, using(app_model::proofs::Cells::row_at_width))]
    fn cells(&self) -> usize {
        self.table.width(self.method)
    }
}

// The tags before an instruction of a subject.
fn tags_at(subject: &Subject, method: MethodNo, index: u32) -> TagsAt<'_>
    ensures tags { result.table.now ≡ subject.now.tags }
    ensures method { result.method ≡ method }
    ensures index { result.index ≡ index }
{
    TagsAt {
        table: &subject.tags,
        method,
        index,
    }
}

/// Whether an instruction is a lock call on what the lock field holds, or a store to it.
pub fn own_operation(subject: &Subject, lock: LockNo, method: MethodNo, index: u32) -> bool
    requires method { method.0 < length subject.now.app.methods }
    requires index { index < code_len subject.now.app method.0 }
    ensures { result ≡ spec.own_operation subject.now lock.0 method.0 index }
{
    let act = act_of(&subject.app, method, index);
    is_own(lock, &act, &tags_at(subject, method, index))
}

/// The statuses, as a mask, with which an instruction leads to its successor number `to` from a status.
pub fn pass(
    subject: &Subject,
    lock: LockNo,
    method: MethodNo,
    index: u32,
    to: u32,
    status: u8,
) -> u8
    requires method { method.0 < length subject.now.app.methods }
    requires index { index < code_len subject.now.app method.0 }
    requires status { status < 8 }
    ensures { result ≡ (spec.status_masks subject.now lock.0).passes method.0 index to status }
{
    let act = act_of(&subject.app, method, index);
    let outside = subject.graph.outside(method, index);
    pass_mask(
        lock,
        &act,
        &tags_at(subject, method, index),
        outside,
        to,
        status,
    )
}

/// The statuses, as a mask, with which an instruction itself throws from a status.
pub fn throws(subject: &Subject, lock: LockNo, method: MethodNo, index: u32, status: u8) -> u8
    requires method { method.0 < length subject.now.app.methods }
    requires index { index < code_len subject.now.app method.0 }
    requires status { status < 8 }
    ensures { result ≡ (spec.status_masks subject.now lock.0).throws method.0 index status }
{
    let act = act_of(&subject.app, method, index);
    let outside = subject.graph.outside(method, index);
    throw_mask(
        lock,
        &act,
        &tags_at(subject, method, index),
        outside,
        status,
    )
}

/// Whether the receiver of a call lets it pass at a status, so that its callees are entered.
pub fn opens(subject: &Subject, lock: LockNo, method: MethodNo, index: u32, status: u8) -> bool
    requires method { method.0 < length subject.now.app.methods }
    requires index { index < code_len subject.now.app method.0 }
    requires status { status < 8 }
    ensures { result ≡ spec.is_open subject.now lock.0 method.0 index status }
{
    let act = act_of(&subject.app, method, index);
    is_open(lock, &act, &tags_at(subject, method, index), status)
}
