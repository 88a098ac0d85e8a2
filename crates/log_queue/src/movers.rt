//! Edges that carry a status to another one, of which the other components see no more. They promise nothing.
use std::alloc::{AllocError, Global};

/// An edge from a view, with the end that is cited, where its callback is a method.
#[derive(Clone, Copy)]
pub struct Move {
    pub view: u32,
    pub edge: u32,
    pub body: Option<u32>,
}

/// A move of a component.
#[derive(Clone, Copy)]
pub struct Mover {
    pub component: u32,
    pub by: Move,
}

/// Movers of two components for each status and each one to which it is carried: one of them is another one for any third.
#[derive(Drop)]
pub struct Movers {
    firsts: Vec<Option<Mover>>,
    seconds: Vec<Option<Mover>>,
}

// Where the movers from a status to another stand.
fn place(from: u8, to: u8) -> usize {
    8 * from as usize + to as usize
}

fn fill(noted: Option<&mut Option<Mover>>, mover: Mover) -> bool {
    match noted {
        Some(noted) if noted.is_none() => {
            *noted = Some(mover);
            true
        }
        Some(_) | None => false,
    }
}

impl Movers {
    pub fn new(alloc: Global) -> Result<Movers, AllocError> {
        let firsts = vec![in alloc; None; 64]?;
        let seconds = vec![in alloc; None; 64]?;
        Ok(Movers { firsts, seconds })
    }

    /// Notes a mover, where it is the first, or the first of another component, and tells whether it is.
    pub fn note(&mut self, from: u8, to: u8, mover: Mover) -> bool {
        let at = place(from, to);
        match self.firsts.get(at) {
            Some(Some(first)) => {
                first.component != mover.component && fill(self.seconds.get_mut(at), mover)
            }
            Some(None) | None => fill(self.firsts.get_mut(at), mover),
        }
    }

    /// A mover of another component.
    pub fn of_another(&self, from: u8, to: u8, component: u32) -> Option<Mover> {
        let at = place(from, to);
        let first = self.firsts.get(at).copied()??;
        if first.component != component {
            return Some(first);
        }
        self.seconds.get(at).copied()?
    }
}
