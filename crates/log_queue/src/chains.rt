//! Lists of numbers, each under its key. They promise nothing.
use std::alloc::{AllocError, Global};

// No link, or no further one.
const NONE: u32 = u32::MAX;

/// A number of a list, and the place of the one that came before it.
#[derive(Clone, Copy)]
pub struct Link {
    pub number: u32,
    before: u32,
}

#[derive(Drop)]
pub struct Chains {
    lasts: Vec<u32>,
    links: Vec<Link>,
}

impl Chains {
    /// Empty lists for so many keys.
    pub fn new(alloc: Global, keys: usize) -> Result<Chains, AllocError> {
        let lasts = vec![in alloc; NONE; keys]?;
        Ok(Chains {
            lasts,
            links: Vec::new(alloc),
        })
    }

    pub fn add(&mut self, key: usize, number: u32) -> Result<(), AllocError> {
        let place = self.links.len();
        if place >= NONE as usize {
            return Err(AllocError);
        }
        let Some(last) = self.lasts.get_mut(key) else {
            return Ok(());
        };
        let before = *last;
        *last = place as u32;
        self.links.push(Link { number, before })?;
        Ok(())
    }

    /// The number that came last under a key.
    pub fn last(&self, key: usize) -> Option<Link> {
        let last = self.lasts.get(key).copied()?;
        self.links.get(last as usize).copied()
    }

    pub fn before(&self, link: Link) -> Option<Link> {
        self.links.get(link.before as usize).copied()
    }
}
