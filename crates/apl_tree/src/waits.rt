//! Forms that wait for their right argument, and what takes an axis.
#![tactic(auto, using(apl_model::proofs::Bridge::bridges))]

ghost use Rattle.std.specs.Prelude.{◌≡◌, IfOk};
ghost use Rattle.apl_model.proofs.Bridge.{positions_with};
ghost use Rattle.apl_model.proofs.Machine as machine;
ghost use Rattle.apl_model.specs.Mirror.{tree_of};
ghost use Rattle.apl_model.specs.Tree as plain;
ghost use Rattle.apl_tree.specs.Mirror.{wait_of, along_of};

use apl_base::{Dya, Name, NoMemory, Place};
use apl_model::{Axis, DyaFn, Expr, MonFn};
use sqlite_items::{Boxed, Items};
use std::alloc::Global;

/// A form that waits for its right argument.
#[derive(Drop)]
pub enum Wait {
    Call {
        f: Name,
        left: Option<Boxed<Expr>>,
        place: Place,
    },
    One {
        f: MonFn,
        place: Place,
    },
    Two {
        f: DyaFn,
        left: Boxed<Expr>,
        place: Place,
    },
    Reduce {
        f: Dya,
        axis: Axis,
        place: Place,
    },
    Outer {
        f: Dya,
        left: Boxed<Expr>,
        place: Place,
    },
    Inner {
        f: Dya,
        g: Dya,
        left: Boxed<Expr>,
        place: Place,
    },
    Assign {
        name: Name,
        place: Place,
    },
    IndexAssign {
        name: Name,
        positions: Items<Option<Expr>>,
        place: Place,
    },
    Output {
        place: Place,
    },
}

impl Wait {
    /// The form with its right argument.
    pub fn fill(self, alloc: Global, right: Expr) -> Result<Expr, NoMemory>
        ensures { IfOk result (λ e. tree_of e ≡ machine.filled (wait_of self) (tree_of right)) }
    {
        let right = Boxed::new(alloc, right)?;
        Ok(self.filled_with(right))
    }

    /// The form with its right argument in a box.
    fn filled_with(self, right: Boxed<Expr>) -> Expr
        ensures { tree_of result ≡ machine.filled (wait_of self) (tree_of right) }
    {
        match self {
            Wait::Call { f, left, place } => Expr::Call {
                f,
                left,
                right: Some(right),
                place,
            },
            Wait::One { f, place } => Expr::One { f, right, place },
            Wait::Two { f, left, place } => Expr::Two {
                f,
                left,
                right,
                place,
            },
            Wait::Reduce { f, axis, place } => Expr::Reduce {
                f,
                axis,
                right,
                place,
            },
            Wait::Outer { f, left, place } => outer_product(f, left, right, place),
            Wait::Inner { f, g, left, place } => inner_product(f, g, left, right, place),
            Wait::Assign { name, place } => Expr::Assign {
                name,
                value: right,
                place,
            },
            Wait::IndexAssign {
                name,
                positions,
                place,
            } => indexed_assignment(name, positions, right, place),
            Wait::Output { place } => Expr::Output {
                value: right,
                place,
            },
        }
    }
}

/// The outer product of two expressions.
fn outer_product(f: Dya, left: Boxed<Expr>, right: Boxed<Expr>, place: Place) -> Expr
    ensures { tree_of result ≡ plain.outer_product f (tree_of left) (tree_of right) place }
{
    Expr::Outer {
        f,
        left,
        right,
        place,
    }
}

/// The inner product of two expressions.
fn inner_product(f: Dya, g: Dya, left: Boxed<Expr>, right: Boxed<Expr>, place: Place) -> Expr
    ensures { tree_of result ≡ plain.inner_product f g (tree_of left) (tree_of right) place }
{
    Expr::Inner {
        f,
        g,
        left,
        right,
        place,
    }
}

/// The assignment of an expression to elements of a variable.
fn indexed_assignment(
    name: Name,
    positions: Items<Option<Expr>>,
    value: Boxed<Expr>,
    place: Place,
) -> Expr
    ensures { tree_of result
        ≡ plain.indexed_assignment name (positions_with positions) (tree_of value) place }
{
    Expr::IndexAssign {
        name,
        positions,
        value,
        place,
    }
}

/// What takes an axis in brackets.
#[derive(Drop)]
pub enum Along {
    Reduces { f: Dya, place: Place },
    Reverses { place: Place },
    Rotates { left: Boxed<Expr>, place: Place },
    Compresses { left: Boxed<Expr>, place: Place },
    Expands { left: Boxed<Expr>, place: Place },
}

impl Along {
    /// The function along this axis.
    pub fn axis(self, axis: Axis) -> Wait
        ensures { wait_of result ≡ machine.along_axis (along_of self) axis }
    {
        match self {
            Along::Reduces { f, place } => Wait::Reduce { f, axis, place },
            Along::Reverses { place } => Wait::One {
                f: MonFn::Reverse { axis },
                place,
            },
            Along::Rotates { left, place } => Wait::Two {
                f: DyaFn::Rotate { axis },
                left,
                place,
            },
            Along::Compresses { left, place } => Wait::Two {
                f: DyaFn::Compress { axis },
                left,
                place,
            },
            Along::Expands { left, place } => Wait::Two {
                f: DyaFn::Expand { axis },
                left,
                place,
            },
        }
    }
}
