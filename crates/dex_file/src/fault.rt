//! What can be wrong with a DEX file as a whole.
ghost use Rattle.std.specs.Prelude.{◌≡◌};
ghost use Rattle.dex_file.specs.Exact.{dex_fault, code_fault};

use dalvik_decode::CodeFault;
use dex_bytes::DexFault;
use std::alloc::{AllocError, AllocFailed};

/// The first fault of a DEX file in reading order.
#[derive(Clone, Copy, Debug, PartialEq, Eq)]
pub enum FileFault {
    /// The header, a table, a class's members or a code item is at fault, or a count over the file
    /// exceeds its limit. `DexFault::Memory` never stands here.
    Dex(DexFault),
    /// The code of the method of this id is at fault. `CodeFault::Memory` never stands here.
    Code(u32, CodeFault),
    /// Memory ran out.
    Memory,
}

impl From<AllocError> for FileFault {
    ghost use Rattle.dex_file.specs.declared.fault.FileFault.TheVariants.{Memory};

    ghost from_gives = { λ _ fault. fault ≡ Memory };

    fn from(_error: AllocError) -> FileFault {
        FileFault::Memory
    }
}

impl<T: Drop> From<AllocFailed<T>> for FileFault {
    ghost use Rattle.dex_file.specs.declared.fault.FileFault.TheVariants.{Memory};

    ghost from_gives = { λ _ fault. fault ≡ Memory };

    fn from(_error: AllocFailed<T>) -> FileFault {
        FileFault::Memory
    }
}

/// A fault of the header, a table, a class's members or a code item.
pub fn dex_fault_of(fault: DexFault) -> FileFault
    ensures { result ≡ dex_fault fault }
{
    match fault {
        DexFault::Memory => FileFault::Memory,
        _ => FileFault::Dex(fault),
    }
}

/// A fault of the code of a method.
pub fn code_fault_of(method: u32, fault: CodeFault) -> FileFault
    ensures { result ≡ code_fault method fault }
{
    match fault {
        CodeFault::Memory => FileFault::Memory,
        _ => FileFault::Code(method, fault),
    }
}
