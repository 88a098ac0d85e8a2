//! What an observer was told, in memory.
ghost use Rattle.std.specs.Prelude.{◌≡◌, ◌≤◌, ◌↔◌, [], Contains, IsErrOf, if◌then◌else◌};
ghost use Rattle.ns_base.specs.Outside.{Rose, told_after};
ghost use Rattle.ns_memory.specs.Counts.{next_count};
ghost use Rattle.ns_memory.specs.Watchers.{is_failed};

use ns_base::{Event, Untold, Watcher};
use std::alloc::Global;
use std::marker::Model;

/// Keeps what it is told, and fails at chosen calls.
#[derive(Drop)]
pub struct MemoryWatcher {
    kind: u8,
    told: Vec<Event>,
    fail: Vec<u64>,
    calls: u64,
    faults: u64,
}

impl Model for MemoryWatcher {
    ghost use Rattle.ns_memory.specs.Watchers.{WatcherState};

    ghost Value = { WatcherState };

    ghost view = { λ s. record {
      sort = s.kind;
      events = s.told.items;
      fails = s.fail.items;
      calls = s.calls;
      faults = s.faults;
    } };
}

impl MemoryWatcher {
    /// Told nothing yet. The `tell` calls whose numbers (from 0) stand in `fail` fail.
    pub fn new(alloc: Global, kind: u8, fail: Vec<u64>) -> MemoryWatcher
        ensures { result ≡ record {
          sort = kind;
          events = [];
          fails = fail.items;
          calls = 0;
          faults = 0;
        } }
    {
        MemoryWatcher {
            kind,
            told: Vec::new(alloc),
            fail,
            calls: 0,
            faults: 0,
        }
    }
}

impl Watcher for MemoryWatcher {
    ghost sort = { λ s. s.sort };

    ghost events = { λ s. s.events };

    ghost faults = { λ s. s.faults };

    fn kind(&self) -> u8
        ensures { result ≡ self.now.sort }
    {
        self.kind
    }

    fn told(&self) -> &[Event]
        ensures { result.now ≡ self.now.events }
    {
        &self.told
    }

    fn tell(&mut self, event: &Event) -> Result<(), Untold>
        ensures events { self.new.events ≡ told_after self.old.events event.now result }
        ensures sort { self.new.sort ≡ self.old.sort }
        ensures later { self.old.faults ≤ self.new.faults }
        ensures cause { IsErrOf result Untold.Failed → Rose self.old.faults self.new.faults }

        // exactly
        ensures fails { IsErrOf result Untold.Failed ↔ Contains self.old.fails self.old.calls }
        ensures state { self.new ≡ record self.old {
          events = told_after self.old.events event.now result;
          calls = next_count self.old.calls;
          faults = (if is_failed result then next_count self.old.faults else self.old.faults);
        } }
    {
        let named = self.fail.contains(&self.calls);
        self.calls = self.calls.saturating_add(1);
        if named {
            self.faults = self.faults.saturating_add(1);
            return Err(Untold::Failed);
        }
        match self.told.push(*event) {
            Ok(()) => Ok(()),
            Err(_) => Err(Untold::Memory),
        }
    }
}
