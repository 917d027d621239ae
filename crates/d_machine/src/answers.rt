//! What the run of a statement answers.

use apl_base::{ErrorKind, Place};

/// How a statement ended: well, or by an error at a place.
#[derive(Clone, Copy, Debug, PartialEq, Eq)]
pub enum Step {
    Done,
    Error { kind: ErrorKind, place: Place },
}

/// Why a run stopped: no statement may begin any more, the cells asked for have no room beside those that live, memory
/// is wanting, or a sink failed.
#[derive(Clone, Copy, Debug, PartialEq, Eq)]
pub enum Stop {
    Spent,
    WsFull { live: u64, asked: u64 },
    NoMemory,
    OutFault,
    TraceFault,
}
