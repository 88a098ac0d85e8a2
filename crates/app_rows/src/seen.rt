//! Lists without repeats, in which a text or a prototype has its number.
ghost use Rattle.std.specs.Prelude.{◌≡◌, ◌≤◌, ◌+◌, ◌^◌, [], bytes_eq, length, map, IfOk};
ghost use Rattle.app_rows.specs.Numbers.{number_in};
ghost use Rattle.indexmap.specs.IndexSet.{insert_key};

use indexmap::IndexSet;
use std::alloc::{AllocError, Global};
use std::marker::Model;

fn copy_text(alloc: Global, text: &[u8]) -> Result<Vec<u8>, AllocError>
    ensures { IfOk result (λ copy. copy.items ≡ text.now) }
{
    text.to_vec(alloc)
}

/// Texts, each once, in the order in which they first came.
#[derive(Drop)]
pub struct Texts {
    set: IndexSet<Vec<u8>>,
}

impl Model for Texts {
    ghost use Rattle.std.specs.Prelude.{ℕ, List, map};

    ghost Value = { List (List ℕ) };

    ghost view = { λ t. map (λ v. v.items) t.set.keys };
}

impl Texts {
    /// No texts.
    pub fn new(alloc: Global) -> Texts
        ensures { result ≡ [] }
    {
        Texts {
            set: IndexSet::new(alloc),
        }
    }

    /// Puts a text last, unless it is there.
    pub fn add(&mut self, alloc: Global, text: &[u8]) -> Result<(), AllocError>
        ensures texts { IfOk result (λ _. self.new ≡ insert_key bytes_eq self.old text.now) }
        ensures len { IfOk result (λ _. length self.new ≤ length self.old + 1) }
    {
        if self.set.get_index_of(text).is_none() {
            let text = copy_text(alloc, text)?;
            self.set.insert(text)?;
        }
        Ok(())
    }

    /// The place of a text; 0 where it is not there.
    pub fn number(&self, text: &[u8]) -> u32
        requires { length self.now ≤ 2 ^ 32 }
        ensures { result ≡ number_in self.now text.now }
    {
        match self.set.get_index_of(text) {
            Some(place) => place as u32,
            None => 0,
        }
    }

    /// The texts in their order.
    pub fn into_vec(self, alloc: Global) -> Result<Vec<Vec<u8>>, AllocError>
        ensures { IfOk result (λ texts. map (λ v. v.items) texts.items ≡ self) }
    {
        self.set.into_iter().collect(alloc)
    }
}

/// Prototypes by the numbers of their types, each once, in the order in which they first came.
#[derive(Drop)]
pub struct Protos {
    set: IndexSet<Vec<u32>>,
}

impl Model for Protos {
    ghost use Rattle.std.specs.Prelude.{ℕ, List, map};

    ghost Value = { List (List ℕ) };

    ghost view = { λ p. map (λ v. v.items) p.set.keys };
}

impl Protos {
    /// No prototypes.
    pub fn new(alloc: Global) -> Protos
        ensures { result ≡ [] }
    {
        Protos {
            set: IndexSet::new(alloc),
        }
    }

    /// Puts a prototype last, unless it is there.
    pub fn add(&mut self, proto: Vec<u32>) -> Result<(), AllocError>
        ensures protos { IfOk result (λ _. self.new ≡ insert_key bytes_eq self.old proto.items) }
        ensures len { IfOk result (λ _. length self.new ≤ length self.old + 1) }
    {
        if self.set.get_index_of(&proto).is_none() {
            self.set.insert(proto)?;
        }
        Ok(())
    }

    /// The place of a prototype; 0 where it is not there.
    pub fn number(&self, proto: &[u32]) -> u32
        requires { length self.now ≤ 2 ^ 32 }
        ensures { result ≡ number_in self.now proto.now }
    {
        match self.set.get_index_of(proto) {
            Some(place) => place as u32,
            None => 0,
        }
    }

    /// The prototypes in their order.
    pub fn into_vec(self, alloc: Global) -> Result<Vec<Vec<u32>>, AllocError>
        ensures { IfOk result (λ protos. map (λ v. v.items) protos.items ≡ self) }
    {
        self.set.into_iter().collect(alloc)
    }
}
