//! What can be wrong with a component list.
ghost use Rattle.std.specs.Prelude.{◌≡◌, string_bytes};

use ns_base::Counted;
use std::alloc::{AllocError, AllocFailed};
use std::marker::Model;

/// A key, as the document has it.
#[derive(Debug, Drop)]
pub struct KeyText {
    text: String,
}

impl Model for KeyText {
    ghost use Rattle.std.specs.Prelude.{ℕ, List, string_bytes};

    ghost Value = { List ℕ };

    ghost view = { λ k. string_bytes k.text };
}

impl KeyText {
    pub fn new(text: String) -> KeyText
        ensures { result ≡ string_bytes text }
    {
        KeyText { text }
    }

    pub fn as_str(&self) -> &str
        ensures { result.now ≡ self.now }
    {
        self.text.as_str()
    }
}

/// The first fault of a component list. The first number is that of a component, from 0; in `Key` it is
/// one more, and 0 stands for the document itself.
#[derive(Debug, Drop)]
pub enum ListFault {
    /// It is no UTF-8, or no TOML document.
    Text,
    /// A key that is unknown, missing, or has a value of a wrong type.
    Key(u32, KeyText),
    /// The kind is none of the four.
    Kind(u32),
    /// The component has `exits` without a name.
    EmptyExits(u32),
    /// A name among the exits, from 0, that is no callback of the kind.
    ExitName(u32, u32),
    /// An earlier component has the class.
    Twice(u32),
    /// The class is none of the application.
    NoClass(u32),
    /// The component has one callback, and the application has no method for it.
    NoCallback(u32),
    /// There are too many components.
    Limit(Counted),
    /// Memory ran out.
    Memory,
}

impl From<AllocError> for ListFault {
    ghost use Rattle.component_list.specs.declared.fault.ListFault.TheVariants.{Memory};

    ghost from_gives = { λ _ fault. fault ≡ Memory };

    fn from(_error: AllocError) -> ListFault {
        ListFault::Memory
    }
}

impl<T: Drop> From<AllocFailed<T>> for ListFault {
    ghost use Rattle.component_list.specs.declared.fault.ListFault.TheVariants.{Memory};

    ghost from_gives = { λ _ fault. fault ≡ Memory };

    fn from(_error: AllocFailed<T>) -> ListFault {
        ListFault::Memory
    }
}
