//! Why a text was not written.

use apl_base::NoMemory;
use std::alloc::AllocError;
use thiserror::Error;

/// Why a text was not written whole: the sink failed, or memory was wanting.
#[derive(Clone, Copy, Debug, Error, PartialEq, Eq)]
pub enum PrintFault {
    #[error("the sink failed")]
    OutFault,
    #[error("memory was wanting")]
    NoMemory,
}

impl From<NoMemory> for PrintFault {
    ghost use Rattle.std.specs.Prelude.{◌≡◌};
    ghost use Rattle.apl_print.specs.declared.faults.PrintFault.TheVariants.{NoMemory};

    ghost from_gives = { λ _ fault. fault ≡ NoMemory };

    /// Want of memory stays that.
    fn from(_fault: NoMemory) -> PrintFault {
        PrintFault::NoMemory
    }
}

impl From<AllocError> for PrintFault {
    ghost use Rattle.std.specs.Prelude.{◌≡◌};
    ghost use Rattle.apl_print.specs.declared.faults.PrintFault.TheVariants.{NoMemory};

    ghost from_gives = { λ _ fault. fault ≡ NoMemory };

    /// Want of memory stays that.
    fn from(_fault: AllocError) -> PrintFault {
        PrintFault::NoMemory
    }
}
