//! Why a line was not read.
ghost use Rattle.std.specs.Prelude.{◌≡◌};
ghost use Rattle.apl_model.specs.Refusal.{past_last};

use apl_base::NoMemory;
use apl_model::Token;

/// Why a line was not read: the column where it stops being the beginning of a lawful line of its kind, or want of memory.
#[derive(Clone, Copy, Debug, PartialEq, Eq)]
pub enum LineFault {
    Stopped { column: u32 },
    NoMemory,
}

impl From<NoMemory> for LineFault {
    ghost use Rattle.std.specs.Prelude.{◌≡◌};
    ghost use Rattle.apl_defn.specs.declared.line_faults.LineFault.TheVariants.{NoMemory};

    ghost from_gives = { λ _ fault. fault ≡ NoMemory };

    /// Want of memory stays that.
    fn from(_fault: NoMemory) -> LineFault {
        LineFault::NoMemory
    }
}

/// The fault of a line that ends as the mere beginning of a lawful one: it stops one column past the last token.
pub(crate) fn ends_early(tokens: &[Token]) -> LineFault
    ensures { result ≡ LineFault.Stopped (past_last tokens.now) }
{
    match tokens.last() {
        Some(token) => LineFault::Stopped { column: token.past },
        None => LineFault::Stopped { column: 1 },
    }
}
