//! What was written, in memory.
ghost use Rattle.std.specs.Prelude.{◌≡◌, ◌≤◌, ◌-◌, ◌++◌, ◌↔◌, ◌==◌, ◌&&◌, nat_lt, [], Some, min, take, length, vec_len, IfOk, IsOk, IsErr, Contains, if◌then◌else◌};
ghost use Rattle.std.specs.Vec.{vec_capacity};
ghost use Rattle.ns_base.specs.Outside.{IsWritten, HasWriteCause, count_taken};
ghost use Rattle.ns_memory.specs.Counts.{next_count};
ghost use Rattle.ns_memory.specs.Sinks.{is_stuck};

use ns_base::{Failed, OutOfMemory, Sink};
use std::alloc::Global;
use std::marker::Model;

/// Takes bytes in pieces, up to its room, and fails at chosen calls.
#[derive(Drop)]
pub struct MemorySink {
    bytes: Vec<u8>,
    room: usize,
    piece: usize,
    fail: Vec<u64>,
    calls: u64,
    faults: u64,
}

impl Model for MemorySink {
    ghost use Rattle.std.specs.Prelude.{◌≤◌, vec_len};
    ghost use Rattle.std.specs.Vec.{vec_capacity};
    ghost use Rattle.ns_memory.specs.Sinks.{SinkState};

    ghost Value = { SinkState };

    ghost view = { λ s. record {
      bytes = s.bytes.items;
      room = s.room;
      piece = s.piece;
      fails = s.fail.items;
      calls = s.calls;
      faults = s.faults;
    } };

    ghost invariant = { λ s. (s.room ≤ vec_capacity s.bytes) × (vec_len s.bytes ≤ s.room) };
}

impl MemorySink {
    /// Takes at most `piece` bytes a call and `room` in all; the calls whose numbers (from 0)
    /// stand in `fail` fail. Memory for all of `room` is taken here.
    pub fn new(
        alloc: Global,
        room: usize,
        piece: usize,
        fail: Vec<u64>,
    ) -> Result<MemorySink, OutOfMemory>
        ensures { IfOk result (λ s. s ≡ record {
          bytes = [];
          room = room;
          piece = piece;
          fails = fail.items;
          calls = 0;
          faults = 0;
        }) }
    {
        Ok(MemorySink {
            bytes: reserve(alloc, room)?,
            room,
            piece,
            fail,
            calls: 0,
            faults: 0,
        })
    }

    /// All that was taken.
    pub fn bytes(&self) -> &[u8]
        ensures value { result.now ≡ self.now.bytes }
        ensures within { length result.now ≤ self.now.room }
    {
        &self.bytes
    }
}

impl Sink for MemorySink {
    ghost taken = { λ s. Some s.bytes };

    ghost faults = { λ s. s.faults };

    fn write(&mut self, piece: &[u8]) -> Result<usize, Failed>
        ensures bytes { IsWritten (Some self.old.bytes) (Some self.new.bytes) piece.now result }
        ensures cause { HasWriteCause self.old.faults self.new.faults piece.now result }

        // exactly
        ensures fails { IsErr result ↔ Contains self.old.fails self.old.calls }
        ensures taken { IfOk result (λ n.
            n ≡ min self.old.piece
            (min (length piece.now) (self.old.room - length self.old.bytes))) }
        ensures state { self.new ≡ record self.old {
          bytes = self.old.bytes ++ take (count_taken result) piece.now;
          calls = next_count self.old.calls;
          faults =
              (if is_stuck piece.now result then next_count self.old.faults else self.old.faults);
        } }
    {
        let named = self.fail.contains(&self.calls);
        self.calls = self.calls.saturating_add(1);
        if named {
            self.faults = self.faults.saturating_add(1);
            return Err(Failed);
        }
        let taken = append(&mut self.bytes, self.room, self.piece, piece);
        self.faults = count_after(self.faults, taken, piece);
        Ok(taken)
    }
}

/// Takes bytes up to its room, and never fails.
#[derive(Drop)]
pub struct CleanSink {
    bytes: Vec<u8>,
    room: usize,
    faults: u64,
}

impl Model for CleanSink {
    ghost use Rattle.std.specs.Prelude.{◌≤◌, vec_len};
    ghost use Rattle.std.specs.Vec.{vec_capacity};
    ghost use Rattle.ns_memory.specs.Sinks.{CleanSinkState};

    ghost Value = { CleanSinkState };

    ghost view = { λ s. record { bytes = s.bytes.items; room = s.room; faults = s.faults } };

    ghost invariant = { λ s. (s.room ≤ vec_capacity s.bytes) × (vec_len s.bytes ≤ s.room) };
}

impl CleanSink {
    /// Takes at most `room` bytes in all. Memory for all of it is taken here.
    pub fn new(alloc: Global, room: usize) -> Result<CleanSink, OutOfMemory>
        ensures { IfOk result (λ s. s ≡ record { bytes = []; room = room; faults = 0 }) }
    {
        Ok(CleanSink {
            bytes: reserve(alloc, room)?,
            room,
            faults: 0,
        })
    }

    /// All that was taken.
    pub fn bytes(&self) -> &[u8]
        ensures value { result.now ≡ self.now.bytes }
        ensures within { length result.now ≤ self.now.room }
    {
        &self.bytes
    }
}

impl Sink for CleanSink {
    ghost taken = { λ s. Some s.bytes };

    ghost faults = { λ s. s.faults };

    fn write(&mut self, piece: &[u8]) -> Result<usize, Failed>
        ensures bytes { IsWritten (Some self.old.bytes) (Some self.new.bytes) piece.now result }
        ensures cause { HasWriteCause self.old.faults self.new.faults piece.now result }

        // exactly
        ensures ok { IsOk result }
        ensures taken { IfOk result (λ n.
            n ≡ min (length piece.now) (self.old.room - length self.old.bytes)) }
        ensures state { self.new ≡ record self.old {
          bytes = self.old.bytes ++ take (count_taken result) piece.now;
          faults =
              (if is_stuck piece.now result then next_count self.old.faults else self.old.faults);
        } }
    {
        let taken = append(&mut self.bytes, self.room, piece.len(), piece);
        self.faults = count_after(self.faults, taken, piece);
        Ok(taken)
    }
}

// An empty list with memory for `room` bytes.
fn reserve(alloc: Global, room: usize) -> Result<Vec<u8>, OutOfMemory>
    ensures empty { IfOk result (λ v. v.items ≡ []) }
    ensures room { IfOk result (λ v. room ≤ vec_capacity v) }
{
    match Vec::with_capacity(alloc, room) {
        Ok(bytes) => Ok(bytes),
        Err(_) => Err(OutOfMemory),
    }
}

// Appends the front of `piece`, as much as `most` and the room left allow, and says how much.
fn append(bytes: &mut Vec<u8>, room: usize, most: usize, piece: &[u8]) -> usize
    requires reserved { room ≤ vec_capacity bytes.old }
    requires within { vec_len bytes.old ≤ room }
    ensures taken { result ≡ min most (min (length piece.now) (room - vec_len bytes.old)) }
    ensures bytes { bytes.new.items ≡ bytes.old.items ++ take result piece.now }
    ensures reserved { room ≤ vec_capacity bytes.new }
    ensures within { vec_len bytes.new ≤ room }
{
    let n = most.min(piece.len().min(room - bytes.len()));
    let (front, _) = piece.split_at(n);
    match bytes.extend_from_slice(front) {
        Ok(()) => n,
        Err(_) => unreachable!(),
    }
}

// The count of faults after a write that took so many bytes of `piece`.
fn count_after(faults: u64, taken: usize, piece: &[u8]) -> u64
    ensures { result ≡
        (if taken == 0 && nat_lt 0 (length piece.now) then next_count faults else faults) }
{
    if taken == 0 && !piece.is_empty() {
        faults.saturating_add(1)
    } else {
        faults
    }
}
