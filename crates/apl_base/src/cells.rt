//! Cells, elements, kinds and intervals.

/// An integer of the language, or the code of a character.
pub type Cell = i128;

/// The greatest magnitude of a number: 10^36.
pub const M: Cell = 1_000_000_000_000_000_000_000_000_000_000_000_000;

/// What the elements of an array are.
#[derive(Clone, Copy, Debug, PartialEq, Eq)]
pub enum Kind {
    /// Numbers in -M..M.
    Num,
    /// Characters, each by its Unicode scalar value.
    Char,
}

/// An element: a cell, and what it is.
#[derive(Clone, Copy, Debug, PartialEq, Eq)]
pub struct Elem {
    pub kind: Kind,
    pub cell: Cell,
}

/// The cells that an array's elements are known to lie in: none, or those from `lo` to `hi`.
#[derive(Clone, Copy, Debug, PartialEq, Eq)]
pub enum Interval {
    Empty,
    Span { lo: Cell, hi: Cell },
}
