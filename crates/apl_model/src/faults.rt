//! Why a script is not read.

use apl_base::{NoMemory, Refusal};
use thiserror::Error;

/// Why a script was not read: it is refused, or memory was wanting.
#[derive(Debug, Drop, Error)]
pub enum ReadFault {
    #[error("the script is refused: {refusal:?}")]
    Refused { refusal: Refusal },
    #[error("memory was wanting")]
    NoMemory,
}

impl From<NoMemory> for ReadFault {
    ghost use Rattle.std.specs.Prelude.{◌≡◌};
    ghost use Rattle.apl_model.specs.declared.faults.ReadFault.TheVariants.{NoMemory};

    ghost from_gives = { λ _ fault. fault ≡ NoMemory };

    /// Want of memory stays that.
    fn from(_fault: NoMemory) -> ReadFault {
        ReadFault::NoMemory
    }
}
