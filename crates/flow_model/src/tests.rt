//! The status table at the cases that tell most, and what acts do to statuses, by the tags of a row.
use crate::{
    acquires, after_acquire, after_is_held, after_mode, after_null, after_release, after_store,
    held_test, image, is_escape, is_open, is_own, is_wrong_call, null_test, pass_mask, stores_new,
    throw_mask,
};
use act_model::{Act, Gives, Throws};
use app_model::{By, LockUse, Tag};
use dalvik::Args;
use ns_base::LockNo;

const A: u8 = 0x01;

const C0: u8 = 0x02;

const C1: u8 = 0x04;

const C2: u8 = 0x08;

const CT: u8 = 0x10;

const U0: u8 = 0x20;

const U1: u8 = 0x40;

const L: u8 = 0x80;

// The same statuses as numbers.
const AT_A: u8 = 0;

const AT_C0: u8 = 1;

const AT_C1: u8 = 2;

#[test]
fn statuses_change_by_the_table(rt: HostRuntime) {
    let acquired = after_acquire(C0 | CT | U0);
    assert_eq!(rt; (acquired.normal, acquired.thrown), (C1 | CT | U1, 0));
    assert_eq!(rt;
        after_acquire(A).thrown,
        A,
        "nothing is acquired through null"
    );
    let released = after_release(C0 | CT | U1);
    assert_eq!(rt; (released.normal, released.thrown), (C2 | CT | U0, C0));
    assert_eq!(rt; after_is_held(A | C1 | L).normal, C1 | L);
    assert_eq!(rt; after_mode(C0 | C1, Tag::Zero).normal, U0 | U1);
    assert_eq!(rt; after_mode(U1, Tag::Solid).normal, C1 | C2 | CT);
    assert_eq!(rt; after_mode(U0, Tag::Any).normal, C0 | U0);
    assert_eq!(rt; after_mode(0xff, Tag::Bot).thrown, 0);
    assert_eq!(rt;
        after_store(A | C1),
        C0 | L,
        "a held lock is lost when another is stored over it"
    );
    assert_eq!(rt; after_null(C0 | U1), A | L);
    assert_eq!(rt;
        (null_test(0xff).zero, null_test(0xff).nonzero),
        (A | L, 0xfe)
    );
    assert_eq!(rt;
        (held_test(0xff).zero, held_test(0xff).nonzero),
        (A | C0 | U0 | L, C1 | C2 | CT | U1 | L)
    );
    assert_eq!(rt; image(&[0x02, 0x04, 0, 0, 0, 0, 0, 0x01], A | L), C0 | A);
}

// A call whose receiver and argument are in registers 0 and 1.
fn call(usage: LockUse) -> Act {
    Act::Call {
        by: By::Virtual,
        usage,
        args: Args::List {
            count: 2,
            registers: [0, 1, 0, 0, 0],
        },
        gives: Gives::Nothing,
    }
}

// A store of register 1 to an instance lock field of the object in register 0.
fn store() -> Act {
    Act::WriteSlot {
        from: 1,
        slot: LockNo(0),
        throws: Throws::WhereZero(0),
    }
}

#[test]
fn acts_go_on_and_throw_by_the_tags_of_a_row(rt: HostRuntime) {
    let lock = LockNo(0);
    let field = Tag::Field(lock);
    for (act, receiver, outside, status, passed, thrown) in [
        (call(LockUse::Plain), Tag::Solid, true, AT_C1, C1, C1),
        (call(LockUse::Plain), Tag::Solid, false, AT_C1, 0, 0),
        (call(LockUse::Plain), Tag::Zero, false, AT_C1, 0, C1),
        (call(LockUse::Acquire), field, false, AT_C0, C1, 0),
        (call(LockUse::Release), field, false, AT_C0, 0, C0),
        (store(), Tag::Zero, false, AT_C1, 0, C1),
        (store(), Tag::Solid, false, AT_C1, L, 0),
        (Act::Test { value: 0, zero: 1 }, field, false, AT_A, 0, 0),
    ] {
        let row = [receiver, Tag::New(3), Tag::Bot];
        let row = row.as_slice();
        assert_eq!(rt; pass_mask(lock, &act, &row, outside, 0, status), passed);
        assert_eq!(rt; throw_mask(lock, &act, &row, outside, status), thrown);
    }
}

#[test]
fn acts_are_told_apart_by_what_they_do_to_a_lock(rt: HostRuntime) {
    let lock = LockNo(0);
    let row = [Tag::Field(lock), Tag::New(3), Tag::Bot];
    let row = row.as_slice();
    let acquire = call(LockUse::Acquire);
    assert!(rt; is_own(lock, &acquire, &row) && acquires(lock, &acquire, &row));
    assert!(rt; is_open(lock, &acquire, &row, AT_C0) && !is_open(lock, &acquire, &row, AT_A));
    assert!(rt; is_escape(&acquire, &row) && !is_wrong_call(&acquire, &row));
    assert!(rt; stores_new(lock, &store(), &row) && !is_escape(&store(), &row));
}
