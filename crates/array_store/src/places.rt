//! Cells read at a distance from one another.

ghost use Rattle.std.specs.Prelude.{◌≡◌, pos, ◌+ℤ◌, ◌≤ℤ◌, ◌<ℤ◌, unsigned_abs, length, slice_index_or};
ghost use Rattle.std.specs.Int.{int_wrap};
ghost use mir.Syntax.{w128};
ghost use Rattle.array_store.specs.Places.{PlacesWithin, cells_along};

use apl_base::Cell;

// Puts the cells at the places `from`, `from + step` and so on into a slice, as many as it has.
pub(crate) fn copy_along(cells: &[Cell], from: Cell, step: Cell, into: &mut [Cell])
    requires { PlacesWithin (length cells.now) from step (length into.old) }
    ensures { into.new ≡ cells_along cells.now from step (length into.old) }
{
    let mut place = from;
    for slot in into.iter_mut() {
        *slot = cell_at(cells, place);
        place = next_place(place, step);
    }
}

// The cell at a place.
fn cell_at(cells: &[Cell], place: Cell) -> Cell
    requires low { pos 0 ≤ℤ place }
    requires high { place <ℤ pos (length cells.now) }
    ensures { result ≡ slice_index_or cells.now (unsigned_abs place) (pos 0) }
{
    cells[place as usize]
}

// The place a step on, as 128 bits hold it.
fn next_place(place: Cell, step: Cell) -> Cell
    ensures { result ≡ int_wrap w128 (place +ℤ step) }
{
    place.wrapping_add(step)
}
