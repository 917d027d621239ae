//! Axes by which the functions go.
ghost use Rattle.std.specs.Prelude.{◌≡◌, ◌⊎◌, ◌<◌, ◌≤◌, pos, ◌+ℤ◌, ◌≤ℤ◌, ◌<ℤ◌, IfOk, IfErr};
ghost use Rattle.apl_base.specs.declared.faults.ErrorKind.TheVariants as error;
ghost use Rattle.made_fns.specs.Answers.{GoesAlong, NoAxis};

use apl_base::{Cell, ErrorKind};
use apl_model::Axis;

/// The number, counted from 0, of the axis that is meant in an array of this rank. An axis in brackets counts from 1, and
/// one that is none is RANK ERROR; a scalar has none but the last and the first, which are 0.
pub fn axis_of(axis: Axis, rank: usize) -> Result<usize, ErrorKind>
    requires { rank ≤ 8 }
    ensures along { IfOk result (GoesAlong axis rank) }
    ensures within { IfOk result (λ k. (k < rank) ⊎ ((rank ≡ 0) × (k ≡ 0))) }
    ensures refused { IfErr result (λ kind. (kind ≡ error.Rank) × NoAxis axis rank) }
{
    match axis {
        Axis::Last => Ok(rank.saturating_sub(1)),
        Axis::First => Ok(0),
        Axis::Numbered { k } => numbered(k, rank),
    }
}

// The axis of this number, counted from 1.
fn numbered(k: Cell, rank: usize) -> Result<usize, ErrorKind>
    requires { rank ≤ 8 }
    ensures along { IfOk result (λ i. (i < rank) × (k ≡ pos 1 +ℤ pos i)) }
    ensures refused { IfErr result (λ kind. (kind ≡ error.Rank)
        × ((k ≤ℤ pos 0) ⊎ (pos rank <ℤ k))) }
{
    if k < 1 || k > rank as Cell {
        return Err(ErrorKind::Rank);
    }
    Ok((k - 1) as usize)
}
