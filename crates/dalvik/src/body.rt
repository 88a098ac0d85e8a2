//! The code of a method as places: each instruction with where control can go from it.
ghost use Rattle.std.specs.Prelude.{◌≡◌, ◌<◌, List, length, slice_index_or};
ghost use Rattle.dalvik.specs.Body.{BodyRows, IsBody};

use crate::few::Few;
use crate::ins::Ins;
use std::marker::Model;

/// An instruction of a method. The numbers in `successors` and `handlers` are indices of places of the
/// same body.
#[derive(Drop)]
pub struct Place {
    pub pc: u32,
    pub ins: Ins,
    /// The next instruction first, then the targets of a branch or a switch in their order.
    pub successors: Few,
    /// The handlers that a throw can come to, in order.
    pub handlers: Few,
    /// Whether a throw can leave the method there.
    pub leaves: bool,
}

/// The code of a method.
#[derive(Drop)]
pub struct Body {
    registers: u16,
    places: Vec<Place>,
}

impl Model for Body {
    ghost use Rattle.dalvik.specs.Body.{BodyRows, IsBody};

    ghost Value = { BodyRows };

    ghost view = { λ b. record { registers = b.registers; places = b.places.items } };

    ghost invariant = { λ b. IsBody b.registers b.places.items };
}

impl Body {
    /// A body of these places. Takes no memory.
    pub fn new(registers: u16, places: Vec<Place>) -> Body
        requires { IsBody registers places.items }
        ensures { result ≡ record { registers = registers; places = places.items } }
    {
        Body { registers, places }
    }

    /// How many registers the method has.
    pub fn registers(&self) -> u16
        ensures { result ≡ self.now.registers }
    {
        self.registers
    }

    /// How many instructions there are.
    pub fn len(&self) -> usize
        ensures len { result ≡ length self.now.places }
        ensures sound { IsBody self.now.registers self.now.places }
    {
        self.places.len()
    }

    /// The instruction of that index, and where control can go from it.
    pub fn place(&self, index: usize) -> &Place
        requires { index < length self.now.places }
        ensures { result.now ≡ slice_index_or self.now.places index result.now }
    {
        &self.places[index]
    }

    /// Hands the places back. Takes no memory.
    pub fn into_places(self) -> Vec<Place>
        ensures places { result.items ≡ self.places }
        ensures sound { IsBody self.registers result.items }
    {
        let Body {
            registers: _,
            places,
        } = self;
        places
    }
}
