//! The functions of the language that are no scalar ones, and axes.

use apl_base::{Cell, Dya, Mon};

/// Along which axis a function goes: the last, the first, or that of the number in brackets.
#[derive(Clone, Copy, Debug, PartialEq, Eq, Drop)]
pub enum Axis {
    Last,
    First,
    Numbered { k: Cell },
}

/// A function of one argument. `⊖` is `Reverse` along the first axis.
#[derive(Clone, Copy, Debug, PartialEq, Eq, Drop)]
pub enum MonFn {
    Scalar { f: Mon },
    Iota,
    Shape,
    Ravel,
    Reverse { axis: Axis },
    Transpose,
    GradeUp,
    GradeDown,
}

/// A function of two arguments. `⊖`, `⌿` and `⍀` are `Rotate`, `Compress` and `Expand` along the first axis.
#[derive(Clone, Copy, Debug, PartialEq, Eq, Drop)]
pub enum DyaFn {
    Scalar { f: Dya },
    Reshape,
    Catenate,
    Rotate { axis: Axis },
    Transpose,
    Take,
    Skip,
    Compress { axis: Axis },
    Expand { axis: Axis },
    IndexOf,
    Member,
    Encode,
    Decode,
}
