//! The widths of a table's columns.

ghost use Rattle.std.specs.Prelude.{◌≡◌, ◌+◌, ◌<◌, ◌≤◌, length, All, replicate, IfOk, OnErr, OnOk};
ghost use Rattle.apl_base.specs.Array.{size_of};
ghost use Rattle.apl_base.specs.Number.{IsCell};
ghost use Rattle.array_store.specs.Stores.{IsStore};
ghost use Rattle.array_store.specs.Counting.{OnlyFetched};
ghost use Rattle.drag_along.specs.Nodes.{leaf_kind, leaf_shape};
ghost use Rattle.drag_along.specs.Lawful.{IsLawfulLeaf};
ghost use Rattle.e_machine.specs.Forced.{cells_from};
ghost use Rattle.apl_print.specs.Layout.{column_after, next_column, widened};

use crate::blocks::{BLOCK, read_block};
use crate::cells::width_of;
use crate::grids::Grid;
use apl_base::{Cell, NoMemory};
use array_store::Store;
use drag_along::Leaf;
use std::alloc::Global;

/// The width of each column of a leaf: that of its widest element. Each element is read once.
pub(crate) fn column_widths(
    alloc: Global,
    leaf: &Leaf,
    grid: Grid,
    store: &mut Store,
) -> Result<Vec<u8>, NoMemory>
    requires lawful { IsLawfulLeaf store.old leaf.now }
    requires kind { grid.kind ≡ leaf_kind leaf.now }
    requires columns { 0 < grid.columns }
    ensures widths { IfOk result (λ widths. widths.items ≡ widened grid 0 (replicate grid.columns 0)
        (cells_from store.old leaf.now 0 (size_of (leaf_shape leaf.now)))) }
    ensures counted { OnlyFetched store.old store.new (size_of (leaf_shape leaf.now)) }
    ensures store { IsStore store.new }
{
    // It tells the proof that the counts are numbers of a machine.
    let _counts = store.counts();
    let mut cells = Vec::with_capacity(alloc, BLOCK as usize)?;
    let mut widths = vec![in alloc; 0u8; grid.columns as usize]?;
    let size = leaf.desc().size();
    let mut column = 0;
    let mut done = 0;
    while done < size {
        done += read_block(leaf, done, store, &mut cells);
        column = widen(grid, column, cells.as_slice(), &mut widths);
    }
    Ok(widths)
}

// Widens the columns by cells, the first of which stands in a column, and says in which the one after them stands.
fn widen(grid: Grid, column: u64, cells: &[Cell], widths: &mut [u8]) -> u64
    requires column { column < grid.columns }
    requires columns { length widths.old ≡ grid.columns }
    requires cells { All (IsCell grid.kind) cells.now }
    ensures widths { widths.new ≡ widened grid column widths.old cells.now }
    ensures next { result ≡ column_after grid column cells.now }
    ensures within { result < grid.columns }
{
    let mut at = column;
    for cell in cells {
        let width = width_of(grid.kind, cell);
        widths[at as usize] = widths[at as usize].max(width);
        at = next_column(grid, at);
    }
    at
}

// The column after this one: behind the last one a row begins.
fn next_column(grid: Grid, column: u64) -> u64
    requires { column < grid.columns }
    ensures next { result ≡ next_column grid column }
    ensures within { result < grid.columns }
{
    if column + 1 == grid.columns {
        0
    } else {
        column + 1
    }
}
