//! Rows of words.
ghost use Rattle.std.specs.Prelude.{◌≡◌, ◌<◌, ◌^◌, ◌++◌, ◌∷◌, [], IfOk, replicate};
ghost use Rattle.solution.specs.Table.{word, row_len, put, Ors};

use std::alloc::{AllocError, Global};
use std::marker::Model;

#[derive(Drop)]
pub struct Table {
    rows: Vec<Vec<u64>>,
}

impl Model for Table {
    ghost use Rattle.solution.specs.Table.{Rows};

    ghost Value = { Rows };

    ghost use Rattle.solution.specs.Table.{rows_of};

    ghost view = { λ t. rows_of t.rows.items };
}

impl Table {
    pub fn new(alloc: Global) -> Table
        ensures { result ≡ [] }
    {
        Table {
            rows: Vec::new(alloc),
        }
    }

    /// Adds a row of so many words, all zero.
    pub fn add_row(&mut self, alloc: Global, len: usize) -> Result<(), AllocError>
        ensures { IfOk result (λ done. self.new ≡ self.old ++ (replicate len 0 ∷ [])) }
    {
        let row = vec![in alloc; 0u64; len]?;
        self.rows.push(row)?;
        Ok(())
    }

    pub fn word(&self, row: usize, place: usize) -> u64
        requires { place < row_len self.now row }
        ensures value { result ≡ word self.now row place }
        ensures fits { result < 2 ^ 64 }
    {
        let words = &self.rows[row];
        words[place]
    }

    fn put(&mut self, row: usize, place: usize, word: u64)
        requires { place < row_len self.old row }
        ensures { self.new ≡ put self.old row place word }
    {
        let words = &mut self.rows[row];
        words[place] = word;
    }

    /// Joins a word into another, and tells whether it changed.
    pub fn or_word(&mut self, row: usize, place: usize, word: u64) -> bool
        requires { place < row_len self.old row }
        ensures { Ors self.old row place word self.new result }
    {
        let old = self.word(row, place);
        let new = old | word;
        if new == old {
            return false;
        }
        self.put(row, place, new);
        true
    }
}
