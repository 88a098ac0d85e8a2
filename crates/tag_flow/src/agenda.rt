//! Places that are worth a look. Nothing is promised of them.
use crate::known::Known;
use act_model::join;
use app_model::Tag;
use ns_base::MethodNo;
use std::alloc::{AllocError, Global};
use tag_rows::{Chains, Queue, WORD, callees_first, number_of};

/// An instruction of a method.
#[derive(Clone, Copy)]
pub(crate) struct Place {
    pub method: MethodNo,
    pub index: u32,
}

/// Places, numbered so that each method begins a word, and callees come before their callers: what a call gives is
/// known before more flows past it.
#[derive(Drop)]
pub(crate) struct Agenda {
    queue: Queue,
    // The method of each word, and the first word of each method.
    owners: Vec<MethodNo>,
    firsts: Vec<u32>,
    // The sets that have a method, the calls that use a set, and what was told of the answers of a set.
    sets: Chains,
    users: Chains,
    told: Vec<Tag>,
}

impl Agenda {
    pub fn new(alloc: Global, known: &Known) -> Result<Agenda, AllocError> {
        let sets = known.graph.set_count();
        let methods = known.app.method_count() as usize;
        let mut agenda = Agenda {
            queue: Queue::new(alloc, 0)?,
            owners: Vec::new(alloc),
            firsts: vec![in alloc; 0; methods]?,
            sets: Chains::new(alloc, methods)?,
            users: Chains::new(alloc, sets)?,
            told: vec![in alloc; Tag::Bot; sets]?,
        };
        let order = callees_first(alloc, known.app, known.graph, known.entries())?;
        for i in 0..order.len() {
            agenda.add_method(known, order[i])?;
        }
        for set in 0..sets {
            agenda.add_set(known, set)?;
        }
        agenda.queue = Queue::new(alloc, agenda.owners.len())?;
        Ok(agenda)
    }

    fn add_method(&mut self, known: &Known, method: MethodNo) -> Result<(), AllocError> {
        let place = method.0 as usize;
        if method.0 < known.app.method_count() && place < self.firsts.len() {
            self.firsts[place] = number_of(self.owners.len());
            for index in 0..known.app.code_len(method) {
                self.add_place(known, Place { method, index })?;
            }
        }
        Ok(())
    }

    fn add_place(&mut self, known: &Known, place: Place) -> Result<(), AllocError> {
        if place.index as usize % WORD == 0 {
            self.owners.push(place.method)?;
        }
        if let Some(set) = known.graph.set_used(place.method, place.index) {
            let number = number_of(self.number(place));
            self.users.add(set as usize, number)?;
        }
        Ok(())
    }

    fn add_set(&mut self, known: &Known, set: usize) -> Result<(), AllocError> {
        let callees = known.graph.set_callees(set);
        for i in 0..callees.len() {
            self.sets.add(callees[i].0 as usize, number_of(set))?;
        }
        Ok(())
    }

    // The number of a place.
    fn number(&self, place: Place) -> usize {
        let first = self
            .firsts
            .get(place.method.0 as usize)
            .copied()
            .unwrap_or(0);
        (first as usize)
            .wrapping_mul(WORD)
            .wrapping_add(place.index as usize)
    }

    /// Adds a place.
    pub fn add(&mut self, method: MethodNo, index: u32) {
        let number = self.number(Place { method, index });
        self.queue.add(number);
    }

    /// Adds the calls that can call a method whose answers grew.
    pub fn add_callers(&mut self, method: MethodNo, answer: Tag) {
        let mut at = self.sets.start(method.0 as usize);
        for _ in 0..self.sets.count() {
            let Some(entry) = self.sets.entry(at) else {
                return;
            };
            self.tell_set(entry.number as usize, answer);
            at = entry.before;
        }
    }

    // Adds the calls that use a set, where this answer is new.
    fn tell_set(&mut self, set: usize, answer: Tag) {
        if set < self.told.len() {
            let joined = join(self.told[set], answer);
            if joined != self.told[set] {
                self.told[set] = joined;
                self.add_users(set);
            }
        }
    }

    fn add_users(&mut self, set: usize) {
        let mut at = self.users.start(set);
        for _ in 0..self.users.count() {
            let Some(entry) = self.users.entry(at) else {
                return;
            };
            self.queue.add(entry.number as usize);
            at = entry.before;
        }
    }

    /// Takes the first place.
    pub fn take(&mut self) -> Option<Place> {
        let number = self.queue.take()?;
        let method = self.owners.get(number / WORD).copied()?;
        let first = self.firsts.get(method.0 as usize).copied()?;
        let before = (first as usize).wrapping_mul(WORD);
        Some(Place {
            method,
            index: number_of(number.wrapping_sub(before)),
        })
    }
}
