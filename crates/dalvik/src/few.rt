//! A short list of numbers.
ghost use Rattle.std.specs.Prelude.{◌≡◌, List, [], ◌∷◌, ◌++◌, length, slice_get, IfOk, OnErr};

use std::alloc::{AllocError, Global};
use std::marker::Model;

/// The numbers of a `Few`.
#[derive(Drop)]
enum Held {
    Nothing,
    One(u32),
    Two(u32, u32),
    More(Box<Vec<u32>>),
}

/// A list of numbers that takes no heap while it has at most two.
#[derive(Drop)]
pub struct Few {
    held: Held,
}

impl Model for Few {
    ghost use Rattle.std.specs.Prelude.{ℕ, List};
    ghost use Rattle.dalvik.specs.Few.{numbers_of};

    ghost Value = { List ℕ };

    ghost view = { λ f. numbers_of f.held };
}

/// The two numbers and one more, on the heap.
fn make_more(
    alloc: Global,
    first: u32,
    second: u32,
    third: u32,
) -> Result<Box<Vec<u32>>, AllocError>
    ensures { IfOk result (λ more. more.value.items ≡ first ∷ second ∷ third ∷ []) }
{
    let mut more = Vec::with_capacity(alloc, 3)?;
    more.push(first)?;
    more.push(second)?;
    more.push(third)?;
    Ok(Box::new(alloc, more)?)
}

impl Few {
    /// The empty list.
    pub fn new() -> Few
        ensures { result ≡ [] }
    {
        Few {
            held: Held::Nothing,
        }
    }

    /// Puts a number at the end; where memory runs out the list stays as it was.
    pub fn push(&mut self, alloc: Global, number: u32) -> Result<(), AllocError>
        ensures pushed { IfOk result (λ _. self.new ≡ self.old ++ number ∷ []) }
        ensures kept { OnErr result (self.new ≡ self.old) }
    {
        match &mut self.held {
            Held::Nothing => self.held = Held::One(number),
            Held::One(first) => self.held = Held::Two(*first, number),
            Held::Two(first, second) => {
                self.held = Held::More(make_more(alloc, *first, *second, number)?);
            }
            Held::More(more) => more.push(number)?,
        }
        Ok(())
    }

    /// How many numbers there are.
    pub fn len(&self) -> usize
        ensures { result ≡ length self.now }
    {
        match &self.held {
            Held::Nothing => 0,
            Held::One(_) => 1,
            Held::Two(_, _) => 2,
            Held::More(more) => more.len(),
        }
    }

    /// The number at a place, or none past the end.
    pub fn get(&self, place: usize) -> Option<u32>
        ensures { result ≡ slice_get self.now place }
    {
        match &self.held {
            Held::Nothing => None,
            Held::One(first) => [*first].get(place).copied(),
            Held::Two(first, second) => [*first, *second].get(place).copied(),
            Held::More(more) => more.get(place).copied(),
        }
    }
}
