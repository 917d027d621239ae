//! Why a function of whole arrays is refused.

ghost use Rattle.std.specs.Prelude.{◌≡◌};
ghost use Rattle.made_leaf.specs.declared.faults.MadeFault.TheVariants as made_fault;
ghost use Rattle.made_leaf.specs.Made.{fault_of};

use apl_base::{ErrorKind, NoMemory};
use array_store::BeginFault;

/// Why a function that is made at once answers no array.
#[derive(Clone, Copy, Debug, PartialEq, Eq)]
pub enum MadeFault {
    /// The function has an error of the language.
    Error { kind: ErrorKind },
    /// The cells that are held and those asked for are more than the limit.
    WsFull { live: u64, asked: u64 },
    NoMemory,
}

impl From<ErrorKind> for MadeFault {
    ghost from_gives = { λ kind fault. fault ≡ made_fault.Error kind };

    // An error is told as that.
    fn from(kind: ErrorKind) -> MadeFault {
        MadeFault::Error { kind }
    }
}

impl From<NoMemory> for MadeFault {
    ghost from_gives = { λ _ fault. fault ≡ made_fault.NoMemory };

    // Want of memory is told as that.
    fn from(_fault: NoMemory) -> MadeFault {
        MadeFault::NoMemory
    }
}

impl From<BeginFault> for MadeFault {
    ghost from_gives = { λ refused fault. fault ≡ fault_of refused };

    // A store's refusal is told with its numbers.
    fn from(refused: BeginFault) -> MadeFault {
        match refused {
            BeginFault::WsFull { live, asked } => MadeFault::WsFull { live, asked },
            BeginFault::NoMemory => MadeFault::NoMemory,
        }
    }
}
