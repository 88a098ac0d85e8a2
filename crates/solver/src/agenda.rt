//! What is to be looked at next, and the calls of each method that are known. It promises nothing.
use crate::task::Site;
use ns_base::MethodNo;
use std::alloc::{AllocError, Global};

// No call, or no further one.
const NONE: usize = usize::MAX;

/// What is to be looked at: an instruction with new facts, or a call of which a callee ends in new ways.
#[derive(Clone, Copy)]
pub enum Look {
    Place(Site),
    Call(Site),
}

#[derive(Clone, Copy)]
struct Call {
    site: Site,
    listed: bool,
}

// A call of one method, and the place of its next one.
#[derive(Clone, Copy)]
struct Wait {
    call: usize,
    next: usize,
}

#[derive(Drop)]
pub struct Agenda {
    places: Vec<Site>,
    again: Vec<usize>,
    calls: Vec<Call>,
    waits: Vec<Wait>,
    firsts: Vec<usize>,
}

impl Agenda {
    pub fn new(alloc: Global, methods: u32) -> Result<Agenda, AllocError> {
        let firsts = vec![in alloc; NONE; methods as usize]?;
        Ok(Agenda {
            places: Vec::new(alloc),
            again: Vec::new(alloc),
            calls: Vec::new(alloc),
            waits: Vec::new(alloc),
            firsts,
        })
    }

    pub fn list(&mut self, site: Site) -> Result<(), AllocError> {
        self.places.push(site)?;
        Ok(())
    }

    /// Calls come again where nothing is new.
    pub fn next(&mut self) -> Option<Look> {
        match self.places.pop() {
            Some(site) => Some(Look::Place(site)),
            None => self.next_call(),
        }
    }

    fn next_call(&mut self) -> Option<Look> {
        let number = self.again.pop()?;
        let call = self.calls.get_mut(number)?;
        call.listed = false;
        Some(Look::Call(call.site))
    }

    /// Notes a call for all that it calls.
    pub fn wait(&mut self, site: Site, callees: &[MethodNo]) -> Result<(), AllocError> {
        if callees.is_empty() {
            return Ok(());
        }
        let call = self.calls.len();
        self.calls.push(Call {
            site,
            listed: false,
        })?;
        for number in 0..callees.len() {
            self.wait_for(call, callees[number])?;
        }
        Ok(())
    }

    fn wait_for(&mut self, call: usize, callee: MethodNo) -> Result<(), AllocError> {
        let wait = self.waits.len();
        let Some(first) = self.firsts.get_mut(callee.0 as usize) else {
            return Ok(());
        };
        let next = *first;
        *first = wait;
        self.waits.push(Wait { call, next })?;
        Ok(())
    }

    /// All known calls of a method come again.
    pub fn call_again(&mut self, callee: MethodNo) -> Result<(), AllocError> {
        let mut wait = match self.firsts.get(callee.0 as usize) {
            Some(first) => *first,
            None => NONE,
        };
        for _ in 0..u64::MAX {
            let Some(Wait { call, next }) = self.waits.get(wait).copied() else {
                return Ok(());
            };
            self.list_call(call)?;
            wait = next;
        }
        Ok(())
    }

    fn list_call(&mut self, number: usize) -> Result<(), AllocError> {
        let Some(call) = self.calls.get_mut(number) else {
            return Ok(());
        };
        if call.listed {
            return Ok(());
        }
        call.listed = true;
        self.again.push(number)?;
        Ok(())
    }
}
