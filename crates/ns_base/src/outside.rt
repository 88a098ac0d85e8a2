//! The outside: where files come from, where the answer goes, and who is told of it.
//!
//! Each trait has a count of faults. It never falls, and a call answers `Failed` only where it rose,
//! so that code over a trait cannot blame the outside for a failure of its own. A count ends at the
//! largest `u64`: there it may stand still in place of rising.
ghost use Rattle.std.specs.Prelude.{◌≡◌, ◌≤◌, List, ℕ, Option, IfOk, IsErrOf};
ghost use Rattle.ns_base.specs.declared.answers.Event.{Event};
ghost use Rattle.ns_base.specs.Outside.{Rose, HasCause, IsRead, IsWritten, HasWriteCause, told_after};

use crate::answers::Event;

/// The outside did not do as it was asked. It says nothing more.
#[derive(Clone, Copy, Debug, PartialEq, Eq)]
pub struct Failed;

/// Memory ran out.
#[derive(Clone, Copy, Debug, PartialEq, Eq)]
pub struct OutOfMemory;

/// Why an event was not told.
#[derive(Clone, Copy, Debug, PartialEq, Eq)]
pub enum Untold {
    /// The watcher's own outside failed; its count of faults rose.
    Failed,
    /// The watcher found no memory; its count says nothing of it.
    Memory,
}

/// Files by name.
pub trait Shelf {
    /// The bytes of each name, where they are told. No call changes them.
    ghost content: { Self → List ℕ → Option (List ℕ) };

    /// How often a call has failed.
    ghost faults: { Self → ℕ };

    /// Fills the front of `into` with the file's bytes from place `at` on, and says how many. It says
    /// 0 for a buffer with room only at the file's end. An absent file is a fault.
    fn read(&mut self, name: &str, at: u64, into: &mut [u8]) -> Result<usize, Failed>
        ensures same { (n : List ℕ) → content self.new n ≡ content self.old n }
        ensures bytes { IfOk result (IsRead (content self.old name.now) at into.new) }
        ensures cause { HasCause (faults self.old) (faults self.new) result };
}

/// Where the answer goes.
pub trait Sink {
    /// All the bytes that were taken, where they are told.
    ghost taken: { Self → Option (List ℕ) };

    /// How often a call has failed, or has taken nothing of something.
    ghost faults: { Self → ℕ };

    /// Takes the front of `piece`, and says how many bytes. On an error it has taken nothing.
    fn write(&mut self, piece: &[u8]) -> Result<usize, Failed>
        ensures bytes { IsWritten (taken self.old) (taken self.new) piece.now result }
        ensures cause { HasWriteCause (faults self.old) (faults self.new) piece.now result };
}

/// An observer, told of events after the answer was written.
pub trait Watcher: Drop {
    /// What sort of observer it is: 1 writes JSON lines, 2 counts.
    ghost sort: { Self → ℕ };

    /// The events it was told, oldest first.
    ghost events: { Self → List Event };

    /// How often a call has failed.
    ghost faults: { Self → ℕ };

    /// What sort of observer it is; this never changes.
    fn kind(&self) -> u8
        ensures { result ≡ sort self.now };

    /// The events it was told, oldest first.
    fn told(&self) -> &[Event]
        ensures { result.now ≡ events self.now };

    /// Tells it one more. After an error its list is as before.
    fn tell(&mut self, event: &Event) -> Result<(), Untold>
        ensures events { events self.new ≡ told_after (events self.old) event.now result }
        ensures sort { sort self.new ≡ sort self.old }
        ensures later { faults self.old ≤ faults self.new }
        ensures cause { IsErrOf result Untold.Failed → Rose (faults self.old) (faults self.new) };
}
