//! Nodes that are worth a look. Nothing is promised of them.
use std::alloc::{AllocError, Global};

#[derive(Drop)]
pub(crate) struct Agenda {
    list: Vec<u32>,
    listed: Vec<bool>,
}

impl Agenda {
    pub fn new(alloc: Global, nodes: usize) -> Result<Agenda, AllocError> {
        let listed = vec![in alloc; false; nodes]?;
        Ok(Agenda {
            list: Vec::new(alloc),
            listed,
        })
    }

    /// Adds a node, unless it is there.
    pub fn add(&mut self, node: u32) -> Result<(), AllocError> {
        let place = node as usize;
        if place < self.listed.len() && !self.listed[place] {
            self.listed[place] = true;
            self.list.push(node)?;
        }
        Ok(())
    }

    pub fn take(&mut self) -> Option<u32> {
        let node = self.list.pop()?;
        if (node as usize) < self.listed.len() {
            self.listed[node as usize] = false;
        }
        Some(node)
    }
}
