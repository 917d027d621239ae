//! Why a part of a run goes no further.

use crate::answers::Stop;
use apl_base::{ErrorKind, Place};
use calling_steps::OutputHalt;
use pending_steps::Halt;

/// Why a part of a run goes no further: an error of evaluation at a place, or the run stops.
#[derive(Clone, Copy, Debug, PartialEq, Eq)]
pub enum Break {
    Error { kind: ErrorKind, place: Place },
    Stop(Stop),
}

impl From<Halt> for Break {
    ghost use Rattle.std.specs.Prelude.{◌≡◌};
    ghost use Rattle.d_machine.specs.Running.{break_of};

    ghost from_gives = { λ halt b. b ≡ break_of halt };

    // The error, or why it stops.
    fn from(halt: Halt) -> Break {
        match halt {
            Halt::Error { kind, place } => Break::Error { kind, place },
            Halt::WsFull { live, asked } => Break::Stop(Stop::WsFull { live, asked }),
            Halt::NoMemory => Break::Stop(Stop::NoMemory),
        }
    }
}

impl From<OutputHalt> for Break {
    ghost use Rattle.std.specs.Prelude.{◌≡◌};
    ghost use Rattle.d_machine.specs.Running.{break_of_output};

    ghost from_gives = { λ halt b. b ≡ break_of_output halt };

    // That of the halt, or the fault of the sink for what is printed.
    fn from(halt: OutputHalt) -> Break {
        match halt {
            OutputHalt::Halted { halt } => Break::from(halt),
            OutputHalt::OutFault => Break::Stop(Stop::OutFault),
        }
    }
}
