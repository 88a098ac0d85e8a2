//! Telling events to watchers.
ghost use Rattle.std.specs.Prelude.{◌≡◌, ◌≤◌, ◌<◌, ◌+◌, ◌++◌, ◌==◌, ℕ, List, Some, true, false, length, map, vec_len, slice_get, is_err, IfErr, OnOk, OnErr, IsErrOf, if◌then◌else◌};
ghost use Rattle.ns_base.specs.Outside.{Rose, told_after};
ghost use Rattle.watchers.specs.Telling.{IsTelling, IsTold, seen, is_chosen, misses, misses_faultless, number_of, one_if};

use ns_base::{Event, Untold, Watcher};

/// How many watchers were told less than all.
#[derive(Clone, Copy, Debug, PartialEq, Eq)]
pub struct Told {
    /// Those that answered with a fault of their own.
    pub failed: u64,
    /// Those that found no memory.
    pub starved: u64,
}

impl Told {
    const NONE: Told = Told {
        failed: 0,
        starved: 0,
    };
}

/// Tells the events to each watcher whose kind is among these, whatever another one answered.
pub fn tell_all(watchers: &mut Vec<Box<dyn Watcher>>, kinds: &[u8], all: &[Event]) -> Told
    ensures len { vec_len watchers.new ≡ vec_len watchers.old }
    ensures each { (i : ℕ) (old new : _) → slice_get watchers.old.items i ≡ Some old → slice_get watchers.new.items i ≡ Some new
        → IsTold kinds.now all.now (seen (sort old) (events old) (faults old)) (seen (sort new) (events new) (faults new)) }
    ensures others { (i : ℕ) (old new : _) → slice_get watchers.old.items i ≡ Some old → slice_get watchers.new.items i ≡ Some new
        → is_chosen kinds.now (sort old) ≡ false → new ≡ old }
    ensures sum { result.failed + result.starved ≡ number_of (misses kinds.now all.now)
        (map (λ w. seen (sort w) (events w) (faults w)) watchers.old.items)
        (map (λ w. seen (sort w) (events w) (faults w)) watchers.new.items) }
    ensures starved { number_of (misses_faultless kinds.now all.now)
        (map (λ w. seen (sort w) (events w) (faults w)) watchers.old.items)
        (map (λ w. seen (sort w) (events w) (faults w)) watchers.new.items) ≤ result.starved }

    // so, of one watcher
    ensures whole { result.failed ≡ 0 → result.starved ≡ 0 → (i : ℕ) (old new : _)
        → slice_get watchers.old.items i ≡ Some old → slice_get watchers.new.items i ≡ Some new
        → is_chosen kinds.now (sort old) ≡ true → events new ≡ events old ++ all.now }
    ensures faultless { result.starved ≡ 0 → (i : ℕ) (old new : _)
        → slice_get watchers.old.items i ≡ Some old → slice_get watchers.new.items i ≡ Some new
        → is_chosen kinds.now (sort old) ≡ true → ¬ Rose (faults old) (faults new) → events new ≡ events old ++ all.now }
    ensures cause { 0 < result.failed → (i : ℕ) × (old : _) × (new : _)
        × (slice_get watchers.old.items i ≡ Some old) × (slice_get watchers.new.items i ≡ Some new)
        × (is_chosen kinds.now (sort old) ≡ true) × Rose (faults old) (faults new) }
{
    let mut told = Told::NONE;
    for i in 0..watchers.len() {
        let one = tell_chosen(&mut watchers[i], kinds, all);
        told.failed += one.failed;
        told.starved += one.starved;
    }
    told
}

// Tells one watcher, unless it is of another kind.
fn tell_chosen(watcher: &mut Box<dyn Watcher>, kinds: &[u8], all: &[Event]) -> Told
    ensures most { result.failed + result.starved ≤ 1 }
    ensures told { IsTold kinds.now all.now
        (seen (sort watcher.old) (events watcher.old) (faults watcher.old))
        (seen (sort watcher.new) (events watcher.new) (faults watcher.new)) }
    ensures other { is_chosen kinds.now (sort watcher.old) ≡ false → watcher.new ≡ watcher.old }
    ensures sum { result.failed + result.starved ≡ one_if (misses kinds.now all.now
        (seen (sort watcher.old) (events watcher.old) (faults watcher.old))
        (seen (sort watcher.new) (events watcher.new) (faults watcher.new))) }
    ensures starved { one_if (misses_faultless kinds.now all.now
        (seen (sort watcher.old) (events watcher.old) (faults watcher.old))
        (seen (sort watcher.new) (events watcher.new) (faults watcher.new))) ≤ result.starved }
{
    if !is_wanted(watcher, kinds) {
        return Told::NONE;
    }
    match tell_one(watcher, all) {
        Ok(()) => Told::NONE,
        Err(Untold::Failed) => Told {
            failed: 1,
            starved: 0,
        },
        Err(Untold::Memory) => Told {
            failed: 0,
            starved: 1,
        },
    }
}

fn is_wanted(watcher: &Box<dyn Watcher>, kinds: &[u8]) -> bool
    ensures { result ≡ is_chosen kinds.now (sort watcher.now) }
{
    kinds.contains(&watcher.kind())
}

/// Tells the events in order, up to the first that is refused.
pub fn tell_one(watcher: &mut Box<dyn Watcher>, all: &[Event]) -> Result<(), Untold>
    ensures { IsTelling all.now
        (seen (sort watcher.old) (events watcher.old) (faults watcher.old))
        (seen (sort watcher.new) (events watcher.new) (faults watcher.new))
        result }
{
    for event in all {
        tell_next(watcher, event)?;
    }
    Ok(())
}

fn tell_next(watcher: &mut Box<dyn Watcher>, event: &Event) -> Result<(), Untold>
    ensures events { events watcher.new ≡ told_after (events watcher.old) event.now result }
    ensures sort { sort watcher.new ≡ sort watcher.old }
    ensures later { faults watcher.old ≤ faults watcher.new }
    ensures cause { IsErrOf result Untold.Failed → Rose (faults watcher.old) (faults watcher.new) }
{
    watcher.tell(event)
}
