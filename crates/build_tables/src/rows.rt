//! Lists without repeats, in which a text or a row has the number of its first sight.
ghost use Rattle.std.specs.Prelude.{◌≡◌, ℕ, [], List, bytes_eq, length, map, take, IfOk};
ghost use Rattle.indexmap.specs.IndexSet.{insert_key};
ghost use Rattle.build_tables.specs.Tables.{place_in};

use indexmap::IndexSet;
use std::alloc::{AllocError, Global};
use std::marker::Model;

// A place as a number of a file. No file has 2 ^ 32 rows, and no builder the memory for them.
fn number(place: usize) -> Result<u32, AllocError>
    ensures { IfOk result (λ n. n ≡ place) }
{
    match u32::try_from(place) {
        Ok(number) => Ok(number),
        Err(_) => Err(AllocError),
    }
}

/// Texts, each once.
#[derive(Drop)]
pub struct Texts {
    set: IndexSet<Vec<u8>>,
}

impl Model for Texts {
    ghost use Rattle.std.specs.Prelude.{ℕ, List, map};

    ghost Value = { List (List ℕ) };

    ghost view = { λ t. map (λ v. v.items) t.set.keys };
}

impl Texts {
    /// No rows.
    pub fn new(alloc: Global) -> Texts
        ensures { result ≡ [] }
    {
        Texts {
            set: IndexSet::new(alloc),
        }
    }

    /// The number of a text, which goes last where it is new.
    pub fn see(&mut self, text: Vec<u8>) -> Result<u32, AllocError>
        ensures number { IfOk result (λ n. n ≡ place_in self.old text.items) }
        ensures rows { IfOk result (λ _. self.new ≡ insert_key bytes_eq self.old text.items) }
        ensures grown { take (length self.old) self.new ≡ self.old }
    {
        let (place, _) = self.set.insert_full(text)?;
        let number = number(place)?;
        Ok(number)
    }

    /// How many rows there are.
    pub fn len(&self) -> usize
        ensures { result ≡ length self.now }
    {
        self.set.len()
    }

    /// The first rows, so many.
    pub fn truncate(&mut self, len: usize)
        ensures { self.new ≡ take len self.old }
    {
        self.set.truncate(len);
    }

    /// The rows in their order.
    pub fn into_vec(self, alloc: Global) -> Result<Vec<Vec<u8>>, AllocError>
        ensures { IfOk result (λ rows. map (λ v. v.items) rows.items ≡ self) }
    {
        self.set.into_iter().collect(alloc)
    }
}

/// Rows of numbers, each once.
#[derive(Drop)]
pub struct Rows {
    set: IndexSet<Vec<u32>>,
}

impl Model for Rows {
    ghost use Rattle.std.specs.Prelude.{ℕ, List, map};

    ghost Value = { List (List ℕ) };

    ghost view = { λ t. map (λ v. v.items) t.set.keys };
}

impl Rows {
    /// No rows.
    pub fn new(alloc: Global) -> Rows
        ensures { result ≡ [] }
    {
        Rows {
            set: IndexSet::new(alloc),
        }
    }

    /// The number of a row, which goes last where it is new.
    pub fn see(&mut self, row: Vec<u32>) -> Result<u32, AllocError>
        ensures number { IfOk result (λ n. n ≡ place_in self.old row.items) }
        ensures rows { IfOk result (λ _. self.new ≡ insert_key bytes_eq self.old row.items) }
        ensures grown { take (length self.old) self.new ≡ self.old }
    {
        let (place, _) = self.set.insert_full(row)?;
        let number = number(place)?;
        Ok(number)
    }

    /// How many rows there are.
    pub fn len(&self) -> usize
        ensures { result ≡ length self.now }
    {
        self.set.len()
    }

    /// The first rows, so many.
    pub fn truncate(&mut self, len: usize)
        ensures { self.new ≡ take len self.old }
    {
        self.set.truncate(len);
    }

    /// The rows in their order.
    pub fn into_vec(self, alloc: Global) -> Result<Vec<Vec<u32>>, AllocError>
        ensures { IfOk result (λ rows. map (λ v. v.items) rows.items ≡ self) }
    {
        self.set.into_iter().collect(alloc)
    }
}
