//! The cost of a statement, as the trace tells it.

/// What a statement took: the line on which it stands, its number among the statements begun, and by how much the
/// counts of the store grew while it was the innermost statement.
#[derive(Clone, Copy, Debug, PartialEq, Eq)]
pub struct Cost {
    pub line: u32,
    pub begun: u64,
    pub ops: u64,
}
