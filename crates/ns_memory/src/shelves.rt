//! Files in memory, by name.
ghost use Rattle.std.specs.Prelude.{◌≡◌, ◌≤◌, ◌<◌, ◌↔◌, ◌-◌, ℕ, List, [], Some, min, take, drop, length, string_bytes, IfOk, IsOk, IsErr, OnOk, OnErr, is_err, if◌then◌else◌};
ghost use Rattle.std.specs.Str.{bytes_eq};
ghost use Rattle.ns_memory.specs.Counts.{next_count};

use crate::files::{Files, fill, put};
use ns_base::{Failed, OutOfMemory, Shelf};
use std::alloc::Global;
use std::collections::BTreeMap;

/// Files in memory that are given in pieces, and whose reads fail at chosen calls.
#[derive(Drop)]
pub struct MemoryShelf {
    files: Files,
    piece: usize,
    fail: Vec<u64>,
    calls: u64,
    faults: u64,
    ghost gives: { 0 < piece },
}

impl MemoryShelf {
    ghost use Rattle.ns_memory.specs.Shelves.{file_of, IsEmptyShelf, ChangesOnlyFiles};

    /// A shelf with no file. A read gives at most `piece` bytes, and the calls whose numbers
    /// (from 0) stand in `fail` fail.
    pub fn new(alloc: Global, piece: usize, fail: Vec<u64>) -> MemoryShelf
        requires { 0 < piece }
        ensures { IsEmptyShelf result piece fail.items }
    {
        MemoryShelf {
            files: BTreeMap::new(alloc),
            piece,
            fail,
            calls: 0,
            faults: 0,
        }
    }

    /// The file `name` has these bytes from now on.
    pub fn add(&mut self, name: String, bytes: Vec<u8>) -> Result<(), OutOfMemory>
        ensures added { OnOk result ((n : List ℕ) →
            file_of self.new n ≡
            (if bytes_eq n (string_bytes name) then Some bytes.items else file_of self.old n)) }
        ensures err { OnErr result ((n : List ℕ) → file_of self.new n ≡ file_of self.old n) }
        ensures others { ChangesOnlyFiles self.old self.new }
    {
        put(&mut self.files, name, bytes)
    }

    // Counts a call that fails.
    fn fault(&mut self) -> Failed
        ensures state { self.new ≡ record self.old { faults = next_count self.old.faults } }
        ensures later { self.old.faults ≤ self.new.faults }
    {
        self.faults = self.faults.saturating_add(1);
        Failed
    }
}

impl Shelf for MemoryShelf {
    ghost use Rattle.ns_base.specs.Outside.{HasCause, IsRead};
    ghost use Rattle.ns_memory.specs.Shelves.{bytes_of, piece_of, faults_of, IsFaulty, HasCalled};

    ghost content = { λ s name. Some (bytes_of s name) };

    ghost faults = { λ s. faults_of s };

    fn read(&mut self, name: &str, at: u64, into: &mut [u8]) -> Result<usize, Failed>
        ensures same { (n : List ℕ) → Some (bytes_of self.new n) ≡ Some (bytes_of self.old n) }
        ensures bytes { IfOk result (IsRead (Some (bytes_of self.old name.now)) at into.new) }
        ensures cause { HasCause (faults_of self.old) (faults_of self.new) result }

        // exactly
        ensures fails { IsErr result ↔ IsFaulty self.old name.now }
        ensures given { IfOk result (λ n.
            n ≡ min (piece_of self.old)
            (min (length into.old) (length (bytes_of self.old name.now) - at))) }
        ensures rest { IfOk result (λ n. drop n into.new ≡ drop n into.old) }
        ensures untouched { OnErr result (into.new ≡ into.old) }
        ensures state { HasCalled self.old self.new (is_err result) }
    {
        let named = self.fail.contains(&self.calls);
        self.calls = self.calls.saturating_add(1);
        if named {
            return Err(self.fault());
        }
        match self.files.get(name) {
            Some(file) => Ok(fill(file, at, self.piece, into)),
            None => Err(self.fault()),
        }
    }
}

/// Files in memory whose reads never fail.
#[derive(Drop)]
pub struct CleanShelf {
    files: Files,
}

impl CleanShelf {
    ghost use Rattle.ns_memory.specs.Shelves.{clean_bytes_of};

    /// A shelf with no file.
    pub fn new(alloc: Global) -> CleanShelf
        ensures { (n : List ℕ) → clean_bytes_of result n ≡ [] }
    {
        CleanShelf {
            files: BTreeMap::new(alloc),
        }
    }

    /// The file `name` has these bytes from now on.
    pub fn add(&mut self, name: String, bytes: Vec<u8>) -> Result<(), OutOfMemory>
        ensures added { OnOk result ((n : List ℕ) →
            clean_bytes_of self.new n ≡
            (if bytes_eq n (string_bytes name) then bytes.items else clean_bytes_of self.old n)) }
        ensures err { OnErr result ((n : List ℕ) →
            clean_bytes_of self.new n ≡ clean_bytes_of self.old n) }
    {
        put(&mut self.files, name, bytes)
    }
}

impl Shelf for CleanShelf {
    ghost use Rattle.ns_base.specs.Outside.{HasCause, IsRead};
    ghost use Rattle.ns_memory.specs.Shelves.{clean_bytes_of};

    ghost content = { λ s name. Some (clean_bytes_of s name) };

    ghost faults = { λ _. 0 };

    fn read(&mut self, name: &str, at: u64, into: &mut [u8]) -> Result<usize, Failed>
        ensures same { (n : List ℕ) →
            Some (clean_bytes_of self.new n) ≡ Some (clean_bytes_of self.old n) }
        ensures bytes { IfOk result (IsRead (Some (clean_bytes_of self.old name.now)) at into.new) }
        ensures cause { HasCause 0 0 result }

        // exactly
        ensures ok { IsOk result }
        ensures given { IfOk result (λ n.
            n ≡ min (length into.old) (length (clean_bytes_of self.old name.now) - at)) }
        ensures rest { IfOk result (λ n. drop n into.new ≡ drop n into.old) }
    {
        match self.files.get(name) {
            Some(file) => Ok(fill(file, at, into.len(), into)),
            None => Ok(0),
        }
    }
}
