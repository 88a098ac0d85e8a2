//! Tags before instructions, through calls and along lists.
use super::read_app;
use super::samples::{INNER_CLASS, TAGS, WIDE};
use crate::{Stop, tags_of};
use app_model::Tag;
use ns_base::{Counted, LockNo, MethodNo};
use std::alloc::Global;
use std::test::Fail;
use tag_flow::TagFault;

const RECEIVER: &str = "[[component]]\nkind = \"receiver\"\nclass = \"Lapp/R;\"\n";

const ACTIVITY: &str =
    "[[component]]\nkind = \"activity\"\nclass = \"Lapp/A;\"\n[[component]]\nkind = \"runnable\"\nclass = \"Lapp/A$1;\"\n";

const WL: Tag = Tag::Field(LockNo(0));

// A register (the last one is the result cell) before an instruction of a method, and its tag.
type Row = (&'static str, (u32, u32, u32), Tag);

static IN_RECEIVER: [Row; 16] = [
    ("the callback's object", (2, 0, 3), Tag::Solid),
    ("its other arguments", (2, 0, 5), Tag::Any),
    ("no argument", (2, 0, 0), Tag::Zero),
    ("the result cell at the start", (2, 0, 6), Tag::Zero),
    ("what newWakeLock gives", (2, 7, 6), Tag::New(0)),
    ("a new lock before it is stored", (2, 8, 0), Tag::New(0)),
    ("and then", (2, 9, 0), WL),
    ("a lock as an argument", (0, 0, 0), WL),
    ("and behind the call of the method itself", (0, 1, 0), WL),
    ("a lock that was an argument", (2, 11, 0), WL),
    (
        "the result of a method that gives nothing",
        (2, 11, 6),
        Tag::Zero,
    ),
    (
        "two callees of which one gives a lock",
        (2, 12, 6),
        Tag::Mixed,
    ),
    ("and the register that takes it", (2, 13, 1), Tag::Mixed),
    (
        "a register behind a call that never returns",
        (2, 14, 0),
        WL,
    ),
    ("the result of that call", (2, 14, 6), Tag::Bot),
    ("past the registers", (2, 14, 7), Tag::Bot),
];

static IN_ACTIVITY: [Row; 6] = [
    ("what the getter of an inner class gives", (4, 3, 0), WL),
    ("whether it is held", (4, 5, 1), Tag::Held(LockNo(0))),
    ("the same before a release", (2, 4, 1), Tag::Held(LockNo(0))),
    (
        "and where a release may have come before",
        (2, 5, 1),
        Tag::Any,
    ),
    ("the word of a getter", (0, 0, 0), Tag::Any),
    ("a field that is no lock", (4, 1, 0), Tag::Any),
];

static UNLISTED: [Row; 2] = [
    ("not reached", (2, 0, 3), Tag::Bot),
    ("nor this", (0, 0, 0), Tag::Bot),
];

// What is the first row with another tag.
fn first_wrong(
    alloc: Global,
    digits: &[&str],
    list: &str,
    rows: &[Row],
) -> Result<Option<&'static str>, Fail> {
    let app = read_app(alloc, digits)?;
    let Ok(table) = tags_of(alloc, &app, list.as_bytes()) else {
        return Err("there is memory".into());
    };
    for (what, (method, index, register), tag) in rows.iter() {
        if table.tag(MethodNo(*method), *index, *register) != *tag {
            return Ok(Some(*what));
        }
    }
    Ok(None)
}

#[test]
fn tags_follow_calls_and_callees(rt: HostRuntime) -> Result<(), Fail> {
    assert_eq!(rt;
        first_wrong(rt.alloc(), &TAGS, RECEIVER, &IN_RECEIVER)?,
        None
    );
    assert_eq!(rt;
        first_wrong(rt.alloc(), &INNER_CLASS, ACTIVITY, &IN_ACTIVITY)?,
        None
    );
    Ok(())
}

#[test]
fn nothing_is_known_where_no_callback_is_listed(rt: HostRuntime) -> Result<(), Fail> {
    assert_eq!(rt; first_wrong(rt.alloc(), &TAGS, "", &UNLISTED)?, None);
    Ok(())
}

#[test]
fn a_row_more_than_the_limit_of_cells_is_refused(rt: HostRuntime) -> Result<(), Fail> {
    let app = read_app(rt.alloc(), &WIDE)?;
    let stopped = tags_of(rt.alloc(), &app, RECEIVER.as_bytes());
    assert!(rt; matches!(stopped, Err(Stop::Tags(TagFault::Limit(Counted::TagCells)))));
    Ok(())
}
