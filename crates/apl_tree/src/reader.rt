//! The reader of one statement: what is open, and what stands last.

use crate::opens::Opens;
use crate::waits::Along;
use apl_base::{Dya, Mon, Place};
use apl_model::{Axis, Expr};
use sqlite_items::Boxed;

/// What stands last.
#[derive(Drop)]
pub enum Status {
    /// Nothing yet: the statement begins.
    First,
    /// An expression has to begin.
    Must,
    /// A position begins, which may be left out.
    May,
    Operand {
        tree: Expr,
    },
    /// A scalar function where an expression begins: of a reduction, or with one argument.
    GlyphFirst {
        f: Dya,
        alone: Option<Mon>,
        place: Place,
    },
    /// A scalar function after an operand: of an inner product, or with two arguments.
    GlyphAfter {
        f: Dya,
        left: Boxed<Expr>,
        place: Place,
    },
    /// What takes an axis: with `[` and a number, or none.
    AxisOrNone {
        along: Along,
    },
    AxisOpened {
        along: Along,
    },
    AxisGiven {
        along: Along,
        axis: Axis,
    },
    AfterJot {
        left: Boxed<Expr>,
        place: Place,
    },
    AfterJotDot {
        left: Boxed<Expr>,
        place: Place,
    },
    AfterDot {
        f: Dya,
        left: Boxed<Expr>,
        place: Place,
    },
    AfterQuad {
        place: Place,
    },
}

/// A reader of one statement, one token after the other.
#[derive(Drop)]
pub struct Reader {
    pub opens: Opens,
    pub status: Status,
}
