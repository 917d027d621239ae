//! The keys of owners, counts, and why no vector is given.

ghost use Rattle.std.specs.Prelude.{◌≡◌};
ghost use Rattle.array_store.specs.declared.ids.BeginFault.TheVariants as begin_fault;

use apl_base::NoMemory;
use std::marker::Model;

/// The number of an owner, which contracts see as its key.
#[derive(Clone, Copy, Debug, PartialEq, Eq)]
pub struct OwnerId {
    pub(crate) key: usize,
}

impl Model for OwnerId {
    ghost use Rattle.std.specs.Prelude.{ℕ};

    ghost Value = { ℕ };

    ghost view = { λ id. id.key };

    ghost inverse = { λ n. record { key = n } };
}

impl OwnerId {
    /// The number.
    pub fn key(&self) -> usize
        ensures { result ≡ self.now }
    {
        self.key
    }
}

/// What was done with a store. Each count stops at its last value.
#[derive(Clone, Copy, Debug, PartialEq, Eq)]
pub struct Counts {
    /// Cells read.
    pub fetched: u64,
    /// Cells of the owners made.
    pub made: u64,
    /// Scalar functions applied to elements.
    pub applied: u64,
}

/// Why a store makes no room for cells.
#[derive(Clone, Copy, Debug, PartialEq, Eq)]
pub enum BeginFault {
    /// The cells that are held and those asked for are more than the limit.
    WsFull { live: u64, asked: u64 },
    NoMemory,
}

impl From<NoMemory> for BeginFault {
    ghost from_gives = { λ _ fault. fault ≡ begin_fault.NoMemory };

    // Want of memory is told as that.
    fn from(_fault: NoMemory) -> BeginFault {
        BeginFault::NoMemory
    }
}
