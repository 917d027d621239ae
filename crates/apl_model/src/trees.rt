//! The trees of expressions and statements.

use crate::functions::{Axis, DyaFn, MonFn};
use apl_base::{Cell, Dya, Kind, Name, Place};
use sqlite_items::{Boxed, Items};

/// A constant: a scalar where it has one cell, else a vector.
#[derive(Drop)]
pub struct Literal {
    pub kind: Kind,
    pub cells: Items<Cell>,
}

/// The tree of an expression. Each node keeps its place: that of its glyph or name, of the `/` or `⌿` of a
/// reduction, the `∘` of an outer and the `.` of an inner product, and the `[` of a subscript.
/// A function of one argument has it on the right. A position that is left out is `None`.
#[derive(Drop)]
pub enum Expr {
    Lit {
        literal: Literal,
        place: Place,
    },
    Name {
        name: Name,
        place: Place,
    },
    Call {
        f: Name,
        left: Option<Boxed<Expr>>,
        right: Option<Boxed<Expr>>,
        place: Place,
    },
    Paren {
        inner: Boxed<Expr>,
        place: Place,
    },
    One {
        f: MonFn,
        right: Boxed<Expr>,
        place: Place,
    },
    Two {
        f: DyaFn,
        left: Boxed<Expr>,
        right: Boxed<Expr>,
        place: Place,
    },
    Reduce {
        f: Dya,
        axis: Axis,
        right: Boxed<Expr>,
        place: Place,
    },
    Outer {
        f: Dya,
        left: Boxed<Expr>,
        right: Boxed<Expr>,
        place: Place,
    },
    Inner {
        f: Dya,
        g: Dya,
        left: Boxed<Expr>,
        right: Boxed<Expr>,
        place: Place,
    },
    Index {
        array: Boxed<Expr>,
        positions: Items<Option<Expr>>,
        place: Place,
    },
    Assign {
        name: Name,
        value: Boxed<Expr>,
        place: Place,
    },
    IndexAssign {
        name: Name,
        positions: Items<Option<Expr>>,
        value: Boxed<Expr>,
        place: Place,
    },
    Output {
        value: Boxed<Expr>,
        place: Place,
    },
}

/// A statement: nothing, a branch `→value`, or an expression.
#[derive(Drop)]
pub enum Statement {
    Nothing,
    Branch { value: Expr, place: Place },
    Value { value: Expr },
}
