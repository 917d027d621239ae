//! An axis that becomes shorter or longer: each of its new numbers has the elements of an old one, or none.
ghost use Rattle.std.specs.Prelude.{◌≡◌, ◌+◌, ◌*◌, ◌^◌, ◌<◌, ◌≤◌, ℕ, [], map, length, slice_index, slice_index_or, slice_set, None, IfSome, vec_capacity};
ghost use Rattle.apl_base.specs.Array.{size_of};
ghost use Rattle.apl_base.specs.Selection.{upward};
ghost use Rattle.made_fns.specs.Lines.{placed, spread_cell};

use crate::turns::{size_behind, size_within};
use apl_base::Cell;

/// Puts into an empty vector with room for them the elements of an array of these lengths: for each number on the axis
/// `along` those of `items` at its source, or blanks. `items` has these lengths but for that axis, whose length there is
/// `axis`.
pub fn spread(
    sources: &[Option<usize>],
    axis: usize,
    lengths: &[u64],
    along: usize,
    items: &[Cell],
    blank: Cell,
    cells: &mut Vec<Cell>,
)
    requires along { along < length lengths.now }
    requires sources { length sources.now ≡ slice_index lengths.now along }
    requires within { (j : ℕ) → j < length sources.now
        → IfSome (slice_index_or sources.now j None) (λ v. v < axis) }
    requires items { length items.now ≡ size_of (slice_set lengths.now along axis) }
    requires few { size_of lengths.now ≤ 2 ^ 40 }
    requires fewer { size_of (slice_set lengths.now along axis) ≤ 2 ^ 40 }
    requires some { 0 < size_of lengths.now }
    requires empty { cells.old.items ≡ [] }
    requires room { size_of lengths.now ≤ vec_capacity cells.old }
    ensures { cells.new.items
        ≡ map (spread_cell lengths.now along axis sources.now items.now blank)
        (upward 0 (size_of lengths.now)) }
{
    let length = sources.len();
    let run = size_behind(lengths, along);
    let size = size_within(lengths) as usize;
    for place in 0..size {
        let base = place / (length * run) * (axis * run) + place % run;
        let cell = cell_from(sources[place / run % length], base, run, items, blank);
        let Ok(()) = cells.push(cell) else {
            unreachable!()
        };
    }
}

// The element at a source, which lies so many runs behind the base, or a blank.
fn cell_from(source: Option<usize>, base: usize, run: usize, items: &[Cell], blank: Cell) -> Cell
    requires within { IfSome source (λ v. base + v * run < length items.now) }
    requires few { length items.now ≤ 2 ^ 40 }
    ensures { result ≡ placed items.now blank base run source }
{
    match source {
        Some(number) => items[base + number * run],
        None => blank,
    }
}
