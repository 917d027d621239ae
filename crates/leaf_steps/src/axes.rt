//! Axes that are counted from the origin.

ghost use Rattle.std.specs.Prelude.{◌≡◌, ◌⊎◌, ℕ, ◌≤◌, pos, ◌+ℤ◌, ◌≤ℤ◌, ◌<ℤ◌};
ghost use Rattle.apl_model.specs.Made.{on_axis};
ghost use Rattle.apl_model.specs.Whole.{Answer};
ghost use Rattle.apl_model_laws.specs.Lawful.{IsOrigin};

use apl_base::Cell;
use apl_model::Axis;

/// The most axes of an array.
const MOST_AXES: Cell = 8;

/// The axis that is meant in an array of 8 axes at most, once those in brackets count from 1.
pub fn counted_from_one(axis: Axis, origin: Cell) -> Axis
    requires { IsOrigin origin }
    ensures { (rank : ℕ) (make : ℕ → Answer) → rank ≤ 8
        → on_axis (pos 1) result rank make ≡ on_axis origin axis rank make }
{
    match axis {
        Axis::Last => Axis::Last,
        Axis::First => Axis::First,
        Axis::Numbered { k } => Axis::Numbered {
            k: number_from_one(k, origin),
        },
    }
}

// The number of an axis once it counts from 1; one that is too large stays so.
fn number_from_one(k: Cell, origin: Cell) -> Cell
    requires { IsOrigin origin }
    ensures { (result +ℤ origin ≡ k +ℤ pos 1) ⊎ ((result ≡ k) × (pos 8 <ℤ k)) }
{
    if origin == 1 || k > MOST_AXES {
        return k;
    }
    k + 1
}
