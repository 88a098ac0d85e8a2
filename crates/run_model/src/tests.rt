//! The status of a lock field in every case.
use crate::{LockState, slot_status};

fn counted(count: u64) -> Option<LockState> {
    Some(LockState {
        count,
        counted: true,
    })
}

fn uncounted(count: u64) -> Option<LockState> {
    Some(LockState {
        count,
        counted: false,
    })
}

#[test]
fn each_status_has_its_number(rt: HostRuntime) {
    let cases = [
        (None, 0),
        (counted(0), 1),
        (counted(1), 2),
        (counted(2), 3),
        (counted(3), 4),
        (counted(u64::MAX), 4),
        (uncounted(0), 5),
        (uncounted(1), 6),
        (uncounted(u64::MAX), 6),
    ];
    for (cell, status) in cases {
        assert_eq!(rt; slot_status(cell, false), status);
        assert_eq!(rt; slot_status(cell, true), 7, "a held lock is lost");
    }
}
