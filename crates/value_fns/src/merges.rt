//! First places of many elements among many others, by two lists in order.

ghost use Rattle.std.specs.Prelude.{◌≡◌, ℕ, ◌<◌, ◌≤◌, true, false, pos, int_lt, map, length, slice_index_or};
ghost use Rattle.std.specs.Ordering.{int_cmp};
ghost use Rattle.std.specs.List.Sorted.{IsPartitionPoint, IsPermutation, IsSortedByKey};
ghost use Rattle.apl_model.specs.Made.{counted_from};
ghost use Rattle.value_fns.specs.Placed.{IsIndex, Placed, cell_of, first_place, placed_from};

use crate::searches::place_from;
use apl_base::Cell;

/// Puts in the place of each wanted cell its first place among the cells, counted from the origin, or the origin and how
/// many these are where it is not among them. Both the cells and the wanted ones are gone through once, in rising order.
pub(crate) fn find_by_merge(
    cells: &[Cell],
    index: &[(Cell, u64)],
    order: &[(Cell, u64)],
    origin: u64,
    wanted: &mut [Cell],
)
    requires index { IsIndex cells.now index.now }
    requires rises { IsSortedByKey cell_of int_cmp order.now }
    requires order { IsPermutation (placed_from 0 wanted.old) order.now }
    requires origin { origin ≤ 1 }
    ensures { wanted.new
        ≡ map (λ z. counted_from (pos origin) (first_place cells.now z)) wanted.old }
{
    let mut from = 0;
    for pair in order {
        from = first_not_below(index, from, pair.0);
        let place = place_from(cells, index, from, pair.0);
        wanted[pair.1 as usize] = Cell::from(origin) + Cell::from(place);
    }
}

// The first place in a list that rises, from one on, where the cell is not less than `wanted`.
fn first_not_below(index: &[(Cell, u64)], from: usize, wanted: Cell) -> usize
    requires rises { IsSortedByKey cell_of int_cmp index.now }
    requires from { from ≤ length index.now }
    requires before { (k : ℕ) (d : Placed) → k < from
        → int_lt (slice_index_or index.now k d).0 wanted ≡ true }
    ensures parts { IsPartitionPoint (λ (y : Placed). int_lt y.0 wanted ≡ true)
        (λ (y : Placed). int_lt y.0 wanted ≡ false) index.now result }
    ensures within { result ≤ length index.now }
{
    for place in from..index.len() {
        if wanted <= index[place].0 {
            return place;
        }
    }
    index.len()
}
