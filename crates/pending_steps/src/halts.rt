//! Why a step halts.

use apl_base::{ErrorKind, NoMemory, Place};
use e_machine::ForceFault;

/// Why a step of the machine halts: evaluation ended as an error at a place, the cells asked for have no room beside
/// those that live, or memory is wanting.
#[derive(Clone, Copy, Debug, PartialEq, Eq)]
pub enum Halt {
    Error { kind: ErrorKind, place: Place },
    WsFull { live: u64, asked: u64 },
    NoMemory,
}

impl From<NoMemory> for Halt {
    ghost use Rattle.std.specs.Prelude.{◌≡◌};
    ghost use Rattle.pending_steps.specs.declared.halts.Halt.TheVariants.{NoMemory};

    ghost from_gives = { λ _ halt. halt ≡ NoMemory };

    /// The same cause; a fault of a function is a DOMAIN ERROR at its place.
    fn from(_fault: NoMemory) -> Halt {
        Halt::NoMemory
    }
}

impl From<ForceFault> for Halt {
    ghost use Rattle.std.specs.Prelude.{◌≡◌};
    ghost use Rattle.pending_steps.specs.Faults.{halt_of};

    ghost from_gives = { λ fault halt. halt ≡ halt_of fault };

    /// The same cause; a fault of a function is a DOMAIN ERROR at its place.
    fn from(fault: ForceFault) -> Halt {
        match fault {
            ForceFault::Fault { place } => Halt::Error {
                kind: ErrorKind::Domain,
                place,
            },
            ForceFault::WsFull { live, asked } => Halt::WsFull { live, asked },
            ForceFault::NoMemory => Halt::NoMemory,
        }
    }
}
