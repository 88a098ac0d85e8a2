//! Why reading ends early.
ghost use Rattle.std.specs.Prelude.{◌≡◌};
ghost use Rattle.dex_tables.specs.declared.stop.Stop.TheVariants.{Fault, Memory};

use dex_bytes::DexFault;
use std::alloc::{AllocError, AllocFailed};

/// Why a part of the reading ends early: a fault of the file, or want of memory.
#[derive(Drop)]
pub enum Stop {
    Fault(DexFault),
    Memory,
}

impl From<DexFault> for Stop {
    ghost from_gives = { λ fault stop. stop ≡ Fault fault };

    fn from(fault: DexFault) -> Stop {
        Stop::Fault(fault)
    }
}

impl From<AllocError> for Stop {
    ghost from_gives = { λ _ stop. stop ≡ Memory };

    fn from(_error: AllocError) -> Stop {
        Stop::Memory
    }
}

impl<T: Drop> From<AllocFailed<T>> for Stop {
    ghost from_gives = { λ _ stop. stop ≡ Memory };

    fn from(_error: AllocFailed<T>) -> Stop {
        Stop::Memory
    }
}
