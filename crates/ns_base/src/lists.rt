//! Lists of lists in one block.
ghost use Rattle.std.specs.Prelude.{◌≡◌, ◌==◌, ◌<◌, ◌≤◌, ◌-◌, ◌+◌, take, drop, ◌++◌, [], ◌∷◌, Some, length, slice_get, get_or, OnOk, OnErr};
ghost use Rattle.ns_base.specs.Lists.{start_at, cut, AreEnds};

use std::alloc::{AllocError, Global};
use std::marker::Model;

/// A list of lists. It takes two blocks of memory, however many lists there are: one for all their
/// items, one after another, and one for the place where each list ends.
#[derive(Drop)]
pub struct Lists<T> {
    items: Vec<T>,
    ends: Vec<u32>,
}

/// Texts, each the list of its bytes.
pub type Texts = Lists<u8>;

impl<T> Model for Lists<T> {
    ghost use Rattle.std.specs.Prelude.{List, length};
    ghost use Rattle.ns_base.specs.Lists.{cut, AreEnds};

    ghost Value = { List (List T) };

    ghost view = { λ l. cut 0 l.items.items l.ends.items };

    ghost invariant = { λ l. AreEnds 0 l.ends.items (length l.items.items) };
}

impl<T> Lists<T> {
    /// No lists.
    pub fn new(alloc: Global) -> Lists<T>
        ensures { result ≡ [] }
    {
        Lists {
            items: Vec::new(alloc),
            ends: Vec::new(alloc),
        }
    }

    /// How many lists there are.
    #[tactic(auto, using(crate::proofs::CutLaws::length_cut))]
    pub fn len(&self) -> usize
        ensures { result ≡ length self.now }
    {
        self.ends.len()
    }

    /// Whether there are no lists. One list that has no items is a list.
    pub fn is_empty(&self) -> bool
        ensures { result ≡ (length self.now == 0) }
    {
        self.len() == 0
    }

    /// The list of a number. The first clause suits what is said of each number, the second the laws of
    /// `proofs/CutLaws.antt`.
    #[tactic(auto, using(crate::proofs::CutLaws::length_cut, crate::proofs::CutLaws::get_or_some))]
    pub fn get(&self, number: usize) -> &[T]
        requires { number < length self.now }
        ensures item { result.now ≡ get_or self.now number [] }
        ensures some { slice_get self.now number ≡ Some result.now }
    {
        piece_of(&self.items, &self.ends, number)
    }
}

impl<T: Copy> Lists<T> {
    /// Puts a list at the end; where memory runs out all stays as it was. All lists together have at
    /// most 4294967295 items: one more counts as want of memory.
    #[tactic(auto, using(crate::proofs::CutLaws::ends_grow, crate::proofs::CutLaws::cut_grow))]
    pub fn push(&mut self, list: &[T]) -> Result<(), AllocError>
        ensures pushed { OnOk result (self.new ≡ self.old ++ list.now ∷ []) }
        ensures kept { OnErr result (self.new ≡ self.old) }
    {
        append(&mut self.items, &mut self.ends, list)
    }
}

/// Puts the items of a list behind the others, and its end behind the other ends. Room for the end is
/// made first, so that nothing has changed where memory runs out.
fn append<T: Copy>(items: &mut Vec<T>, ends: &mut Vec<u32>, list: &[T]) -> Result<(), AllocError>
    ensures pushed { OnOk result ((items.new.items ≡ items.old.items ++ list.now)
        × (ends.new.items ≡ ends.old.items ++ (length items.old.items + length list.now) ∷ [])) }
    ensures kept { OnErr result ((items.new.items ≡ items.old.items) × (ends.new.items ≡ ends.old.items)) }
{
    // Items may take no room, so the sum of two counts need not fit a `usize`.
    let Ok(end) = u32::try_from(items.len() as u128 + list.len() as u128) else {
        return Err(AllocError);
    };
    ends.reserve(1)?;
    items.extend_from_slice(list)?;
    match ends.push(end) {
        Ok(()) => Ok(()),
        Err(_) => unreachable!(),
    }
}

/// The items of the list of a number.
fn piece_of<'a, T>(items: &'a [T], ends: &[u32], number: usize) -> &'a [T]
    requires ends { AreEnds 0 ends.now (length items.now) }
    requires number { number < length ends.now }
    ensures { Some result.now ≡ slice_get (cut 0 items.now ends.now) number }
{
    let start = start_from(ends, number);
    let end = ends[number] as usize;
    slice_of(items, start, end)
}

/// The items between two places.
fn slice_of<'a, T>(items: &'a [T], start: usize, end: usize) -> &'a [T]
    requires { (start ≤ end) × (end ≤ length items.now) }
    ensures { result.now ≡ take (end - start) (drop start items.now) }
{
    let (_, rest) = items.split_at(start);
    rest.split_at(end - start).0
}

/// Where the list of a number begins.
fn start_from(ends: &[u32], number: usize) -> usize
    requires { number < length ends.now }
    ensures { result ≡ start_at 0 ends.now number }
{
    if number == 0 {
        0
    } else {
        ends[number - 1] as usize
    }
}
