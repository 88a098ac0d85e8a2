//! Links from nodes to nodes, which are numbers.
ghost use Rattle.std.specs.Prelude.{◌≡◌, ◌<◌, ◌++◌, ◌∷◌, [], IfOk, length, slice_get, Some};

use std::alloc::{AllocError, Global};
use std::marker::Model;

#[derive(Clone, Copy)]
pub(crate) struct Link {
    pub from: u32,
    pub to: u32,
}

/// Past all places.
const NO_PLACE: u32 = u32::MAX;

/// Links in one row. The links from one node are found one after another: `firsts` has the place of the
/// first, `nexts` that of the next one. Nothing is promised of these.
#[derive(Drop)]
pub(crate) struct Links {
    rows: Vec<Link>,
    nexts: Vec<u32>,
    firsts: Vec<u32>,
}

impl Model for Links {
    ghost use Rattle.std.specs.Prelude.{List};
    ghost use Rattle.call_reach.specs.declared.links.Link.{Link};

    ghost Value = { List Link };

    ghost view = { λ l. l.rows.items };
}

fn place_of(place: usize) -> u32 {
    if place < NO_PLACE as usize {
        place as u32
    } else {
        NO_PLACE
    }
}

impl Links {
    /// None yet, over so many nodes.
    pub fn new(alloc: Global, nodes: usize) -> Result<Links, AllocError>
        ensures { IfOk result (λ links. links ≡ []) }
    {
        let firsts = vec![in alloc; NO_PLACE; nodes]?;
        Ok(Links {
            rows: Vec::new(alloc),
            nexts: Vec::new(alloc),
            firsts,
        })
    }

    pub fn add(&mut self, link: Link) -> Result<(), AllocError>
        ensures { IfOk result (λ done. self.new ≡ self.old ++ link ∷ []) }
    {
        let next = self.first(link.from);
        self.nexts.push(next)?;
        if (link.from as usize) < self.firsts.len() {
            self.firsts[link.from as usize] = place_of(self.rows.len());
        }
        self.rows.push(link)?;
        Ok(())
    }

    pub fn len(&self) -> usize
        ensures { result ≡ length self.now }
    {
        self.rows.len()
    }

    pub fn get(&self, place: usize) -> Link
        requires { place < length self.now }
        ensures { slice_get self.now place ≡ Some result }
    {
        self.rows[place]
    }

    /// The place of the first link from a node, if it is one.
    pub fn first(&self, node: u32) -> u32 {
        match self.firsts.get(node as usize) {
            Some(place) => *place,
            None => NO_PLACE,
        }
    }

    /// The place of the next link from the same node, if it is one.
    pub fn next(&self, place: usize) -> u32 {
        match self.nexts.get(place) {
            Some(next) => *next,
            None => NO_PLACE,
        }
    }
}
