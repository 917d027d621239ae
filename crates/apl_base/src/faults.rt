//! Errors, refusals, their places, and want of memory.

use std::alloc::{AllocError, AllocFailed};

/// Memory was wanting. No contract says when.
#[derive(Clone, Copy, Debug, PartialEq, Eq)]
pub struct NoMemory;

impl From<AllocError> for NoMemory {
    ghost use Rattle.std.specs.Prelude.{◌≡◌};

    ghost from_gives = { λ _ e. e ≡ record {} };

    /// Any failure to have memory is want of it.
    fn from(_fault: AllocError) -> NoMemory {
        NoMemory
    }
}

impl<T: Drop> From<AllocFailed<T>> for NoMemory {
    ghost use Rattle.std.specs.Prelude.{◌≡◌};

    ghost from_gives = { λ _ e. e ≡ record {} };

    /// Any failure to have memory is want of it.
    fn from(_fault: AllocFailed<T>) -> NoMemory {
        NoMemory
    }
}

/// Lengths that are no shape: more than 8, or one or their product above 2^40.
#[derive(Clone, Copy, Debug, PartialEq, Eq)]
pub struct TooLarge;

/// A line of the script and a column of it, both counted from 1.
#[derive(Clone, Copy, Debug, PartialEq, Eq)]
pub struct Place {
    pub line: u32,
    pub column: u32,
}

/// The errors of the language, as `DOMAIN ERROR`.
#[derive(Clone, Copy, Debug, PartialEq, Eq)]
pub enum ErrorKind {
    Value,
    Domain,
    Length,
    Rank,
    Index,
    Limit,
    Depth,
}

/// The most bytes of a script: 2^20. A longer one is refused as too long.
pub const MOST_BYTES: usize = 1 << 20;

/// Why a script is refused before anything of it is run. Of two refusals at one place the cause that stands first
/// is answered.
#[derive(Clone, Copy, Debug, PartialEq, Eq)]
pub enum Cause {
    TooLong,
    Utf8,
    LineLong,
    Character,
    Number,
    OpenText,
    Header,
    DoubleName,
    OpenDefinition,
    NameClass,
    Deep,
    Grammar,
}

/// The refusal of a script: where, and why.
#[derive(Clone, Copy, Debug, PartialEq, Eq)]
pub struct Refusal {
    pub line: u32,
    pub column: u32,
    pub cause: Cause,
}
