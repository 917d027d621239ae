//! Functions of one argument.

ghost use Rattle.std.specs.Prelude.{◌≡◌, ◌⊎◌, ◌<◌, ◌≤◌, pos, ◌+ℤ◌, ◌<ℤ◌, ◌≤ℤ◌, length, reverse, IfOk, IfErr};
ghost use Rattle.apl_base.specs.declared.faults.ErrorKind.TheVariants as error;
ghost use Rattle.apl_base.specs.Selection.{upward};
ghost use Rattle.apl_model.specs.Evaluation.{monadic_value};
ghost use Rattle.apl_model.specs.Made.{reversed, flipped};
ghost use Rattle.apl_model_laws.specs.Lawful.{IsOrigin};
ghost use Rattle.selection_choices.specs.Choices.{SelectsOne, Chooses, Errs};

use crate::choices::Choice;
use apl_base::{Cell, ErrorKind, Shape};
use apl_model::{Axis, MonFn};
use beating::Selection;
use smallvec::SmallVec;

/// What `⌽`, `⊖` or `⍉` makes of an array of this shape, or its RANK ERROR. It takes no memory.
pub fn choose_one(f: MonFn, origin: Cell, shape: &Shape) -> Result<Choice, ErrorKind>
    requires selects { SelectsOne f }
    requires origin { IsOrigin origin }
    ensures chooses { IfOk result (Chooses (monadic_value origin f) shape.now) }
    ensures refused { IfErr result (Errs (monadic_value origin f) shape.now) }
{
    match f {
        MonFn::Reverse { axis } => reversal(axis, origin, shape),
        MonFn::Transpose => Ok(flip(shape)),
        MonFn::Scalar { .. }
        | MonFn::Iota
        | MonFn::Shape
        | MonFn::Ravel
        | MonFn::GradeUp
        | MonFn::GradeDown => unreachable!(),
    }
}

// An axis turned round; a scalar has none but the last and the first, and stays as it is.
fn reversal(axis: Axis, origin: Cell, shape: &Shape) -> Result<Choice, ErrorKind>
    requires origin { IsOrigin origin }
    ensures chooses { IfOk result (Chooses (reversed origin axis) shape.now) }
    ensures refused { IfErr result (Errs (reversed origin axis) shape.now) }
{
    let rank = shape.rank();
    let k = match axis {
        Axis::Numbered { k } => numbered(k, origin, rank)?,
        Axis::Last | Axis::First if rank == 0 => return Ok(Choice::Same),
        Axis::Last => rank - 1,
        Axis::First => 0,
    };
    Ok(Choice::Select {
        by: Selection::Reverse { axis: k },
    })
}

// The axis of this number, counted from 0.
fn numbered(k: Cell, origin: Cell, rank: usize) -> Result<usize, ErrorKind>
    requires rank { rank ≤ 8 }
    requires origin { IsOrigin origin }
    ensures names { IfOk result (λ i. (i < rank) × (k ≡ origin +ℤ pos i)) }
    ensures refused { IfErr result (λ kind. (kind ≡ error.Rank)
        × ((k <ℤ origin) ⊎ ((origin +ℤ pos rank) ≤ℤ k))) }
{
    if k < origin || k >= origin + rank as Cell {
        return Err(ErrorKind::Rank);
    }
    Ok((k - origin) as usize)
}

// The axes in reverse order.
fn flip(shape: &Shape) -> Choice
    ensures { Chooses flipped shape.now result }
{
    Choice::Select {
        by: Selection::Transpose {
            axes: falling(shape),
        },
    }
}

// The numbers of the axes, the greatest first.
fn falling(shape: &Shape) -> SmallVec<usize, 8>
    ensures { result.items ≡ reverse (upward 0 (length shape.now)) }
{
    let rank = shape.rank();
    let mut axes = SmallVec::new(shape.allocator());
    for done in 0..rank {
        axes.push_reserved(rank - 1 - done);
    }
    axes
}
