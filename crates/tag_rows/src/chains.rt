//! Numbers under keys. Nothing is promised of them.
use std::alloc::{AllocError, Global};

/// A number under a key, and the place of the one before it under that key, one more than it is; 0 where there is none.
#[derive(Clone, Copy)]
pub struct Entry {
    pub number: u32,
    pub before: u32,
}

/// The number of a place; one that is too large is that of no place.
pub fn number_of(place: usize) -> u32 {
    match u32::try_from(place) {
        Ok(number) => number,
        Err(_) => u32::MAX,
    }
}

/// Numbers under keys, the last one of each key first.
#[derive(Drop)]
pub struct Chains {
    last: Vec<u32>,
    entries: Vec<Entry>,
}

impl Chains {
    pub fn new(alloc: Global, keys: usize) -> Result<Chains, AllocError> {
        let last = vec![in alloc; 0; keys]?;
        Ok(Chains {
            last,
            entries: Vec::new(alloc),
        })
    }

    pub fn add(&mut self, key: usize, number: u32) -> Result<(), AllocError> {
        if key < self.last.len() {
            let before = self.last[key];
            self.entries.push(Entry { number, before })?;
            self.last[key] = number_of(self.entries.len());
        }
        Ok(())
    }

    /// The first entry of a key.
    pub fn start(&self, key: usize) -> u32 {
        self.last.get(key).copied().unwrap_or(0)
    }

    pub fn entry(&self, place: u32) -> Option<Entry> {
        if place == 0 {
            return None;
        }
        self.entries.get(place as usize - 1).copied()
    }

    /// How many entries there are.
    pub fn count(&self) -> usize {
        self.entries.len()
    }
}
