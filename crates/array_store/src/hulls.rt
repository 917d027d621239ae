//! The interval that cells lie in.

ghost use Rattle.std.specs.Prelude.{◌≡◌};
ghost use Rattle.apl_base.specs.Interval.{hull, exact_interval};

use apl_base::{Cell, Interval};

// The least interval that has this one and the cell.
pub(crate) fn widened(interval: Interval, cell: Cell) -> Interval
    ensures { result ≡ hull interval cell }
{
    match interval {
        Interval::Empty => Interval::Span { lo: cell, hi: cell },
        Interval::Span { lo, hi } => Interval::Span {
            lo: lo.min(cell),
            hi: hi.max(cell),
        },
    }
}

// From the least cell to the greatest.
pub(crate) fn least_to_greatest(cells: &[Cell]) -> Interval
    ensures { result ≡ exact_interval cells.now }
{
    let mut interval = Interval::Empty;
    for cell in cells {
        interval = widened(interval, *cell);
    }
    interval
}
