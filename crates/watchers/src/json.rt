//! The observer that writes JSON.
ghost use Rattle.std.specs.Prelude.{◌≡◌, ◌≤◌, ℕ, [], OnOk, IsErrOf};
ghost use Rattle.ns_base.specs.Outside.{Rose, told_after};
ghost use Rattle.watchers.specs.Lines.{json_line};
ghost use Rattle.watchers.specs.Writing.{WroteAll, WrotePart};

use crate::lines;
use crate::noting::note;
use ns_base::{Event, Sink, Untold, Watcher};
use std::alloc::Global;
use std::marker::Model;

/// Writes each event as a line of JSON.
#[derive(Drop)]
pub struct JsonWatcher<K> {
    alloc: Global,
    sink: K,
    told: Vec<Event>,
}

impl<K> Model for JsonWatcher<K> {
    ghost use Rattle.watchers.specs.Noting.{Noted};

    ghost Value = { Noted K };

    ghost view = { λ s. record { sink = s.sink; events = s.told.items } };
}

impl<K: Sink + Drop> JsonWatcher<K> {
    /// Told nothing yet.
    pub fn new(alloc: Global, sink: K) -> JsonWatcher<K>
        ensures { result ≡ record { sink = sink; events = [] } }
    {
        JsonWatcher {
            alloc,
            sink,
            told: Vec::new(alloc),
        }
    }

    /// Where it writes.
    pub fn sink(&self) -> &K
        ensures { result.now ≡ self.now.sink }
    {
        &self.sink
    }
}

impl<K: Sink + Drop> Watcher for JsonWatcher<K> {
    ghost sort = { λ _. 1 };

    ghost events = { λ s. s.events };

    ghost faults = { λ s. K.faults s.sink };

    fn kind(&self) -> u8
        ensures { result ≡ 1 }
    {
        1
    }

    fn told(&self) -> &[Event]
        ensures { result.now ≡ self.now.events }
    {
        &self.told
    }

    fn tell(&mut self, event: &Event) -> Result<(), Untold>
        ensures events { self.new.events ≡ told_after self.old.events event.now result }
        ensures sort { ◌≡◌ {A = ℕ} 1 1 }
        ensures later { K.faults self.old.sink ≤ K.faults self.new.sink }
        ensures cause { IsErrOf result Untold.Failed → Rose (K.faults self.old.sink) (K.faults self.new.sink) }

        // exactly
        ensures wrote { OnOk result (WroteAll (K.taken self.old.sink) (K.taken self.new.sink) (json_line event.now)) }
        ensures part { IsErrOf result Untold.Failed →
            WrotePart (K.taken self.old.sink) (K.taken self.new.sink) (json_line event.now) }
        ensures memory { IsErrOf result Untold.Memory → self.new ≡ self.old }
    {
        let Ok(line) = lines::json_line(self.alloc, event) else {
            return Err(Untold::Memory);
        };
        note(&mut self.sink, &mut self.told, event, line.as_bytes())
    }
}
