//! Why a pending expression is not computed.

ghost use Rattle.std.specs.Prelude.{◌≡◌};
ghost use Rattle.e_machine.specs.declared.faults.ForceFault.TheVariants as force_fault;
ghost use Rattle.e_machine.specs.Refusals.{fault_of};

use apl_base::{NoMemory, Place};
use array_store::BeginFault;

/// Why a pending expression is not forced.
#[derive(Clone, Copy, Debug, PartialEq, Eq)]
pub enum ForceFault {
    /// A function is undefined at an element: the place of the first one that is, in postfix order.
    Fault { place: Place },
    /// The cells that are held and those asked for are more than the limit.
    WsFull { live: u64, asked: u64 },
    NoMemory,
}

impl From<NoMemory> for ForceFault {
    ghost from_gives = { λ _ fault. fault ≡ force_fault.NoMemory };

    /// The same cause, with its numbers.
    fn from(_fault: NoMemory) -> ForceFault {
        ForceFault::NoMemory
    }
}

impl From<BeginFault> for ForceFault {
    ghost from_gives = { λ refused fault. fault ≡ fault_of refused };

    /// The same cause, with its numbers.
    fn from(refused: BeginFault) -> ForceFault {
        match refused {
            BeginFault::WsFull { live, asked } => ForceFault::WsFull { live, asked },
            BeginFault::NoMemory => ForceFault::NoMemory,
        }
    }
}
