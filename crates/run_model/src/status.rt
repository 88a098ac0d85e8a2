//! The status of a lock field.
ghost use Rattle.std.specs.Prelude.{◌≡◌};
ghost use Rattle.run_model.specs.Heaps.{status_by, status_of};
ghost use Rattle.run_model.specs.States.{counters};

// The numbers of the statuses, as the status table of the rules has them.
const A: u8 = 0;

const C0: u8 = 1;

const C1: u8 = 2;

const C2: u8 = 3;

const CT: u8 = 4;

const U0: u8 = 5;

const U1: u8 = 6;

const L: u8 = 7;

/// A wake lock as its status sees it: `counted` is what `setReferenceCounted` last said.
#[derive(Clone, Copy, Debug, PartialEq, Eq)]
pub struct LockState {
    pub count: u64,
    pub counted: bool,
}

/// The status of a lock field by the lock that it holds, and by whether it lost one that is held: a lock that it owns,
/// with a count above zero, and that it does not hold any more.
pub fn slot_status(cell: Option<LockState>, lost: bool) -> u8
    ensures status { result ≡ status_of lost (counters cell) }
{
    if lost {
        return L;
    }
    match cell {
        None => A,
        Some(lock) => lock_status(lock.counted, lock.count),
    }
}

fn lock_status(counted: bool, count: u64) -> u8
    ensures status { result ≡ status_by counted count }
{
    match (counted, count) {
        (true, 0) => C0,
        (true, 1) => C1,
        (true, 2) => C2,
        (true, _) => CT,
        (false, 0) => U0,
        (false, _) => U1,
    }
}
