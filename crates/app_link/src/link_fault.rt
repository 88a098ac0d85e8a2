//! Why files are no application.
ghost use Rattle.std.specs.Prelude.{◌≡◌};

use ns_base::Counted;
use std::alloc::AllocError;

/// The first fault of the files of an application. The first number is that of a file.
#[derive(Clone, Copy, Debug, PartialEq, Eq)]
pub enum LinkFault {
    /// A class row whose name an earlier one has, and the file of that one.
    DuplicateClass(u32, u32, u32),
    /// A method id: the method is neither abstract nor native, and has no code.
    CodeMissing(u32, u32),
    /// A method id: the method is abstract or native, and has code.
    CodeUnwanted(u32, u32),
    /// A class row: the class is its own ancestor by superclasses and interfaces.
    SuperCycle(u32, u32),
    /// Code units, wake-lock fields or calls that make a lock exceed their limit.
    Limit(Counted),
    /// Memory ran out.
    Memory,
}

impl From<AllocError> for LinkFault {
    ghost use Rattle.app_link.specs.declared.link_fault.LinkFault.TheVariants.{Memory};

    ghost from_gives = { λ _ fault. fault ≡ Memory };

    fn from(_error: AllocError) -> LinkFault {
        LinkFault::Memory
    }
}
