//! Where a statement goes.

use apl_base::Cell;

/// Where a statement goes: on to the next line, or to the line of a number.
#[derive(Clone, Copy, Debug, PartialEq, Eq)]
pub enum Flow {
    Onwards,
    Line { number: Cell },
}
