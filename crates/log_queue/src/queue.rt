//! Which lines and views come next, and what waits for what. It promises nothing.
use crate::chains::Chains;
use crate::movers::{Move, Movers};
use std::alloc::{AllocError, Global};

/// What goes on where a method ends: a line at a call of it, by its number, or a move by its callback.
#[derive(Clone, Copy)]
pub enum Wait {
    Call(u32),
    Start(Move),
}

/// What is next, and what was looked at. `waits` and `ends` have what waits for a method, and the lines that are its ends, for
/// each entry status; `seen` the views at each status.
#[derive(Drop)]
pub struct Queue {
    pub ends: Chains,
    pub waits: Chains,
    pub seen: Chains,
    pub movers: Movers,
    all: Vec<Wait>,
    line: u32,
    view: u32,
}

/// The key of a method that is entered at a status.
pub fn key(method: u32, entry: u8) -> usize {
    8 * method as usize + entry as usize
}

impl Queue {
    pub fn new(alloc: Global, methods: u32) -> Result<Queue, AllocError> {
        Ok(Queue {
            ends: Chains::new(alloc, 8 * methods as usize)?,
            waits: Chains::new(alloc, 8 * methods as usize)?,
            seen: Chains::new(alloc, 8)?,
            movers: Movers::new(alloc)?,
            all: Vec::new(alloc),
            line: 0,
            view: 0,
        })
    }

    /// The next one of so many lines.
    pub fn next_line(&mut self, lines: u32) -> Option<u32> {
        let line = self.line;
        if line >= lines {
            return None;
        }
        self.line = line + 1;
        Some(line)
    }

    /// The next one of so many views.
    pub fn next_view(&mut self, views: u32) -> Option<u32> {
        let view = self.view;
        if view >= views {
            return None;
        }
        self.view = view + 1;
        Some(view)
    }

    /// What waits, by its number in a list.
    pub fn wait(&self, number: u32) -> Option<Wait> {
        self.all.get(number as usize).copied()
    }

    pub fn add_wait(&mut self, key: usize, wait: Wait) -> Result<(), AllocError> {
        let number = self.all.len();
        if number >= u32::MAX as usize {
            return Err(AllocError);
        }
        self.all.push(wait)?;
        self.waits.add(key, number as u32)
    }
}
