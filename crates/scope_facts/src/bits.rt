//! Sets of lock fields as masks: bit l for lock field l. No application has more than 64.
ghost use Rattle.std.specs.Prelude.{◌≡◌, true};
ghost use Rattle.app_model.specs.Masks.{in_lock_mask};
ghost use Rattle.scope_facts.specs.Bits.{Tells};

use ns_base::LockNo;

/// The set of one lock field.
pub fn bit_of(lock: LockNo) -> u64
    ensures { Tells result (λ l. lock.0 ≡ l) }
{
    if lock.0 < 64 { 1 << lock.0 } else { 0 }
}

/// The set of one lock field where a test was passed, and else the empty set.
pub(crate) fn bit_if(test: bool, lock: LockNo) -> u64
    ensures { Tells result (λ l. (test ≡ true) × (lock.0 ≡ l)) }
{
    if test { bit_of(lock) } else { 0 }
}

pub fn has_lock(mask: u64, lock: LockNo) -> bool
    ensures { result ≡ in_lock_mask mask lock.0 }
{
    lock.0 < 64 && (mask >> lock.0) & 1 == 1
}
