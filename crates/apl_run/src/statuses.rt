//! How a run ends, and what it leaves.

ghost use Rattle.std.specs.Prelude.{◌≡◌};

use apl_base::{Cell, Refusal};
use apl_print::Cost;
use array_store::Store;
use name_table::Names;

/// A sink of the top call: that of the printed bytes, or that of the trace.
#[derive(Clone, Copy, Debug, PartialEq, Eq)]
pub enum Which {
    Out,
    Trace,
}

/// How a run ended.
#[derive(Clone, Copy, Debug, PartialEq, Eq)]
pub enum Status {
    /// The script was run to its end and reported no error.
    Done,
    /// The script was run to its end and reported an error.
    Reported,
    /// The script was refused, and nothing of it was run.
    Refused { refusal: Refusal },
    /// The turns were spent.
    Spent,
    /// The store had no room: so many cells were live, and so many more were asked for.
    WsFull { live: u64, asked: u64 },
    /// Memory was wanting.
    NoMemory,
    /// A sink failed.
    WriteFault { which: Which },
    /// The source failed.
    ReadFault,
    /// The words of the command line were refused.
    Words,
}

impl Status {
    ghost use Rattle.apl_run.specs.Statuses.{code_of};

    /// The exit status of the program, 0 to 8 in the order of the variants.
    pub fn code(&self) -> u8
        ensures { result ≡ code_of self.now }
    {
        match self {
            Status::Done => 0,
            Status::Reported => 1,
            Status::Refused { .. } => 2,
            Status::Spent => 3,
            Status::WsFull { .. } => 4,
            Status::NoMemory => 5,
            Status::WriteFault { .. } => 6,
            Status::ReadFault => 7,
            Status::Words => 8,
        }
    }
}

/// The variables that a run leaves: their names, the store of their cells, and the origin in force.
#[derive(Drop)]
pub struct Workspace {
    pub store: Store,
    pub names: Names,
    pub origin: Cell,
}

/// The end of a run, what it leaves, and what its statements took where a trace was asked for, in the order in which they
/// ended.
#[derive(Drop)]
pub struct Ended {
    pub status: Status,
    pub ws: Workspace,
    pub costs: Vec<Cost>,
}
