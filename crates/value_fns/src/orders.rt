//! Elements with their places, in order.

ghost use Rattle.std.specs.Prelude.{◌≡◌, ◌<◌, ◌≤◌, pos, neg_ℤ, map, length, All, IfOk, OnOk};
ghost use Rattle.std.specs.List.Sorted.{IsPermutation};
ghost use Rattle.apl_base.specs.Number.{IsNumber};
ghost use Rattle.apl_base.specs.Selection.{upward};
ghost use Rattle.apl_model.specs.Made.{counted_from, in_order};
ghost use Rattle.value_fns.specs.Placed.{IsIndex, Placed, placed_from};

use apl_base::{Cell, NoMemory};
use std::alloc::Global;

/// Puts the places of numbers, counted from the origin, in rising or falling order of the numbers into their own place.
/// Equal numbers keep their order.
pub(crate) fn order_cells(
    alloc: Global,
    down: bool,
    origin: u64,
    cells: &mut [Cell],
) -> Result<(), NoMemory>
    requires numbers { All IsNumber cells.old }
    requires origin { origin ≤ 1 }
    ensures { OnOk result (cells.new ≡ map (counted_from (pos origin))
        (in_order down cells.old (upward 0 (length cells.old)))) }
{
    // The falling order is the rising order of the numbers negated.
    if down {
        negate(cells);
    }
    let index = index_cells(alloc, cells)?;
    put_places(index.as_slice(), origin, cells);
    Ok(())
}

// Negates each number.
fn negate(cells: &mut [Cell])
    requires { All IsNumber cells.old }
    ensures { cells.new ≡ map neg_ℤ cells.old }
{
    for cell in cells.iter_mut() {
        *cell = -*cell;
    }
}

// Puts the places of an index, counted from the origin, into a slice of that length.
fn put_places(index: &[(Cell, u64)], origin: u64, cells: &mut [Cell])
    requires length { length index.now ≡ length cells.old }
    requires origin { origin ≤ 1 }
    ensures { cells.new ≡ map (λ x. counted_from (pos origin) x.1) index.now }
{
    for (i, placed) in index.iter().enumerate() {
        cells[i] = Cell::from(origin) + Cell::from(placed.1);
    }
}

// The cells with their places, counted from 0.
fn numbered(alloc: Global, cells: &[Cell]) -> Result<Vec<(Cell, u64)>, NoMemory>
    ensures { IfOk result (λ placed. placed.items ≡ placed_from 0 cells.now) }
{
    let mut placed = Vec::with_capacity(alloc, cells.len())?;
    for (place, cell) in cells.iter().enumerate() {
        placed.push((*cell, place as u64))?;
    }
    Ok(placed)
}

/// The cells with their places, counted from 0, in rising order of the cells. Equal cells keep their order.
pub(crate) fn index_cells(alloc: Global, cells: &[Cell]) -> Result<Vec<(Cell, u64)>, NoMemory>
    ensures index { IfOk result (λ placed. IsIndex cells.now placed.items) }
    ensures permutation { IfOk result (λ placed.
        IsPermutation (placed_from 0 cells.now) placed.items) }
{
    let mut placed = numbered(alloc, cells)?;
    placed.sort_by_key(|pair| pair.0)?;
    Ok(placed)
}
