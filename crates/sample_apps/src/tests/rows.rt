//! Facts follow the masks that are asked, whosever they are.
ghost use Rattle.std.specs.Prelude.{IfOk};
ghost use Rattle.app_model.specs.Subject.{IsEnterable};
ghost use Rattle.solution.specs.Facts.{HasPlaces};

use super::read_app;
use super::samples::RECEIVER;
use crate::subject_of;
use app_model::Subject;
use flow_model::{Rows, StatusRows};
use ns_base::{ComponentNo, LockNo, MethodNo};
use solution::Solution;
use solver::solve_calls;
use std::alloc::Global;
use std::test::Fail;

const LIST: &str = "[[component]]\nkind = \"receiver\"\nclass = \"Lapp/R;\"\n";

// The masks of the status rules, but at one instruction of each method, which passes and throws with these statuses from each.
#[derive(Drop)]
struct Altered {
    rules: StatusRows,
    index: u32,
    passes: u8,
    throws: u8,
}

impl Rows for Altered {
    ghost use Rattle.flow_model.specs.Subject.{status_masks};
    ghost use Rattle.sample_apps.specs.Altered.{altered};

    ghost masks = { λ rows x l. altered rows.index rows.passes rows.throws (status_masks x l) };

    ghost count = { λ rows. rows.rules };

    fn asked(&self) -> u64 {
        self.rules.asked()
    }

    fn pass(
        &mut self,
        subject: &Subject,
        lock: LockNo,
        method: MethodNo,
        index: u32,
        to: u32,
        status: u8,
    ) -> u8 {
        let mask = self.rules.pass(subject, lock, method, index, to, status);
        if index == self.index {
            self.passes
        } else {
            mask
        }
    }

    fn throws(
        &mut self,
        subject: &Subject,
        lock: LockNo,
        method: MethodNo,
        index: u32,
        status: u8,
    ) -> u8 {
        let mask = self.rules.throws(subject, lock, method, index, status);
        if index == self.index {
            self.throws
        } else {
            mask
        }
    }
}

// In the callback: makes the lock (6), acquires it (10), releases it (12) and returns (13).
const ACQUIRE: u32 = 10;

const RELEASE: u32 = 12;

const NOWHERE: u32 = 99;

// What is shown, the altered instruction with its masks, and the statuses at which the callback returns and throws.
type Row = (&'static str, (u32, u8, u8), (u8, u8));

static ROWS: [Row; 6] = [
    ("the status rules alone", (NOWHERE, 0, 0), (0x02, 0x01)),
    (
        "an acquire that leaves nothing held: the release throws",
        (ACQUIRE, 0x02, 0),
        (0, 0x03),
    ),
    (
        "an acquire that throws always",
        (ACQUIRE, 0, 0x02),
        (0, 0x03),
    ),
    (
        "one that leaves the lock uncounted and held",
        (ACQUIRE, 0x40, 0),
        (0x20, 0x01),
    ),
    (
        "a release that keeps the lock held",
        (RELEASE, 0x04, 0),
        (0x04, 0x01),
    ),
    (
        "one that does anything",
        (RELEASE, 0xff, 0x80),
        (0xff, 0x81),
    ),
];

// One fact: a method is entered with no lock in the field.
#[tactic(auto, using(solver::proofs::Turns::places_kept), unfolding(solution::specs::Facts::place_count))]
fn entered(alloc: Global, subject: &Subject, method: MethodNo) -> Result<Solution, Fail>
    requires { IsEnterable subject.now method.0 }
    ensures { IfOk result (HasPlaces subject.now) }
{
    let Ok(mut solution) = Solution::new(alloc, subject) else {
        return Err("there is memory".into());
    };
    solution.join_at(method, 0, 1);
    Ok(solution)
}

// The statuses at which the callback then returns and throws.
fn ends(rt: &HostRuntime, rows: &mut Altered) -> Result<(u8, u8), Fail> {
    let alloc = rt.alloc();
    let app = read_app(alloc, &RECEIVER)?;
    let Ok(subject) = subject_of(alloc, app, LIST.as_bytes()) else {
        return Err("an application in scope".into());
    };
    let components = subject.list.rows.len();
    if components == 0 || subject.lock_count() != 1 {
        return Err("one lock, and a component".into());
    }
    let Some(method) = subject.callback(ComponentNo(0), 0) else {
        return Err("a callback".into());
    };
    let mut solution = entered(alloc, &subject, method)?;
    match solve_calls(alloc, &subject, LockNo(0), &mut solution, rows) {
        Ok(()) => Ok((solution.ret(method, 0), solution.exc(method, 0))),
        Err(_) => Err("there is memory".into()),
    }
}

#[test]
fn facts_follow_the_masks_that_are_asked(rt: HostRuntime) -> Result<(), Fail> {
    for (what, (index, passes, throws), expected) in ROWS.iter() {
        let mut rows = Altered {
            rules: StatusRows::new(),
            index: *index,
            passes: *passes,
            throws: *throws,
        };
        assert_eq!(rt; ends(&rt, &mut rows)?, *expected, "{what}");
        assert!(rt; rows.asked() > 0, "{what}");
    }
    Ok(())
}
