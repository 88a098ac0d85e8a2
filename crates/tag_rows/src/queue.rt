//! Numbers of which the lowest is taken first. Nothing is promised of them.
use std::alloc::{AllocError, Global};

/// How many numbers a word has.
pub const WORD: usize = 64;

/// A set of numbers, a bit each.
#[derive(Drop)]
pub struct Queue {
    words: Vec<u64>,
    // A bit for each word that is not 0; no word of these before `low` has a bit.
    blocks: Vec<u64>,
    low: usize,
}

fn bit_of(number: usize) -> u64 {
    1 << (number % WORD)
}

fn set(words: &mut Vec<u64>, number: usize) {
    let place = number / WORD;
    if place < words.len() {
        words[place] |= bit_of(number);
    }
}

fn clear(words: &mut Vec<u64>, number: usize) {
    let place = number / WORD;
    if place < words.len() {
        words[place] &= !bit_of(number);
    }
}

// The lowest number of a word.
fn lowest(words: &[u64], place: usize) -> Option<usize> {
    let word = words.get(place).copied()?;
    if word == 0 {
        return None;
    }
    Some(
        place
            .wrapping_mul(WORD)
            .wrapping_add(word.trailing_zeros() as usize),
    )
}

impl Queue {
    /// No numbers, of so many words.
    pub fn new(alloc: Global, words: usize) -> Result<Queue, AllocError> {
        let blocks = words / WORD + 1;
        Ok(Queue {
            words: vec![in alloc; 0; words]?,
            blocks: vec![in alloc; 0; blocks]?,
            low: 0,
        })
    }

    /// Adds a number.
    pub fn add(&mut self, number: usize) {
        let word = number / WORD;
        if word < self.words.len() {
            set(&mut self.words, number);
            set(&mut self.blocks, word);
            self.low = self.low.min(word / WORD);
        }
    }

    /// Takes the lowest number.
    pub fn take(&mut self) -> Option<usize> {
        let word = self.first_word()?;
        let number = lowest(&self.words, word);
        if let Some(number) = number {
            clear(&mut self.words, number);
        }
        if self.words.get(word).copied().unwrap_or(0) == 0 {
            clear(&mut self.blocks, word);
        }
        number
    }

    // The first word that is not 0.
    fn first_word(&mut self) -> Option<usize> {
        for block in self.low..self.blocks.len() {
            if let Some(word) = lowest(&self.blocks, block) {
                self.low = block;
                return Some(word);
            }
        }
        self.low = self.blocks.len();
        None
    }
}
