//! Joins, and how an act changes the tags of a row.
use crate::{Act, Gives, Returned, Throws, join, tag_after, tag_called, tag_thrown};
use app_model::{By, LockUse, Tag};
use dalvik::Args;
use ns_base::LockNo;

#[test]
fn tags_join_to_the_least_one_above_both(rt: HostRuntime) {
    let field = Tag::Field(LockNo(0));
    let held = Tag::Held(LockNo(1));
    for (a, b, both) in [
        (Tag::Bot, field, field),
        (Tag::Zero, Tag::Solid, Tag::Any),
        (held, Tag::Held(LockNo(2)), Tag::Any),
        (field, Tag::Field(LockNo(0)), field),
        (field, Tag::Zero, Tag::Mixed),
        (Tag::New(1), Tag::New(2), Tag::Mixed),
    ] {
        assert_eq!(rt; join(a, b), both, "{a:?} {b:?}");
    }
}

fn release() -> Act {
    Act::Call {
        by: By::Virtual,
        usage: LockUse::Release,
        args: Args::Range { first: 0, count: 1 },
        gives: Gives::Nothing,
    }
}

#[test]
fn a_release_forgets_that_its_lock_is_held(rt: HostRuntime) {
    let (field, held) = (Tag::Field(LockNo(0)), Tag::Held(LockNo(0)));
    let row = [field, held, Tag::Any];
    let row = row.as_slice();
    assert_eq!(rt; tag_after(&row, 0, &release(), 1), Tag::Any);
    assert_eq!(rt; tag_after(&row, 0, &release(), 2), Tag::Zero);
    assert_eq!(rt; tag_thrown(&row, &release(), 1), Tag::Any);
    assert_eq!(rt; tag_called(1, field), Tag::Mixed);
}

#[test]
fn a_new_lock_that_is_stored_is_what_the_field_holds(rt: HostRuntime) {
    let store = Act::WriteSlot {
        from: 0,
        slot: LockNo(0),
        throws: Throws::Never,
    };
    let row = [Tag::New(5), Tag::New(6), Tag::Any];
    let row = row.as_slice();
    assert_eq!(rt; tag_after(&row, 0, &store, 0), Tag::Field(LockNo(0)));
    assert_eq!(rt; tag_after(&row, 0, &store, 1), Tag::New(6));
    let leave = Act::Return {
        returned: Returned::Nothing,
    };
    assert_eq!(rt; tag_after(&row, 0, &leave, 0), Tag::New(5));
}
