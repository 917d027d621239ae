//! The elements of an array, each in its place of the text.

ghost use Rattle.std.specs.Prelude.{◌≡◌, ◌+◌, ◌<◌, ◌≤◌, ◌++◌, length, All, slice_index_or, encode_utf8_all, string_bytes, IfOk, OnOk};
ghost use Rattle.apl_base.specs.Number.{IsCell};
ghost use Rattle.apl_model.specs.Printed.{cell_text};
ghost use Rattle.apl_print.specs.Layout.{element_text, elements_text, next_spot, spot_after, text_before, text_behind, IsSpot};

use crate::cells::add_field;
use crate::grids::{Grid, Spot};
use apl_base::{Cell, Kind, NoMemory};

impl Grid {
    /// Where the element after this one stands.
    pub(crate) fn next(self, at: Spot) -> Spot
        requires { IsSpot self at }
        ensures next { result ≡ next_spot self at }
        ensures lawful { IsSpot self result }
    {
        let row = if at.row == self.rows { 0 } else { at.row };
        if at.column + 1 == self.columns {
            Spot {
                row: row + 1,
                column: 0,
            }
        } else {
            Spot {
                row,
                column: at.column + 1,
            }
        }
    }
}

/// Appends elements, the first of which stands at a place, and says where the one after them stands.
pub(crate) fn add_elements(
    grid: Grid,
    widths: &[u8],
    at: Spot,
    cells: &[Cell],
    text: &mut String,
) -> Result<Spot, NoMemory>
    requires spot { IsSpot grid at }
    requires cells { All (IsCell grid.kind) cells.now }
    ensures text { OnOk result (string_bytes text.new ≡ string_bytes text.old
        ++ encode_utf8_all (elements_text grid widths.now at cells.now)) }
    ensures next { IfOk result (λ next. next ≡ spot_after grid at cells.now) }
    ensures lawful { IfOk result (λ next. IsSpot grid next) }
{
    let mut spot = at;
    for cell in cells {
        add_element(grid, widths, spot, cell, text)?;
        spot = grid.next(spot);
    }
    Ok(spot)
}

// Appends an element, with what stands before it and behind it.
fn add_element(
    grid: Grid,
    widths: &[u8],
    at: Spot,
    cell: &Cell,
    text: &mut String,
) -> Result<(), NoMemory>
    requires spot { IsSpot grid at }
    requires cell { IsCell grid.kind cell.now }
    ensures { OnOk result (string_bytes text.new ≡ string_bytes text.old
        ++ encode_utf8_all (element_text grid widths.now at cell.now)) }
{
    add_before(grid, at, text)?;
    add_field(grid.kind, width_at(widths, at.column), cell, text)?;
    add_behind(grid, at, text)
}

// The width of a column: 0 where none is told.
fn width_at(widths: &[u8], column: u64) -> u8
    ensures { result ≡ slice_index_or widths.now column 0 }
{
    match widths.get(column as usize) {
        Some(width) => *width,
        None => 0,
    }
}

// Appends what stands before an element.
fn add_before(grid: Grid, at: Spot, text: &mut String) -> Result<(), NoMemory>
    ensures { OnOk result (string_bytes text.new
        ≡ string_bytes text.old ++ encode_utf8_all (text_before grid at)) }
{
    if at.column == 0 {
        if at.row == grid.rows {
            text.push('\n')?;
        }
        return Ok(());
    }
    match grid.kind {
        Kind::Num => {
            text.push(' ')?;
            Ok(())
        }
        Kind::Char => Ok(()),
    }
}

// Appends what stands behind an element.
fn add_behind(grid: Grid, at: Spot, text: &mut String) -> Result<(), NoMemory>
    requires { IsSpot grid at }
    ensures { OnOk result (string_bytes text.new
        ≡ string_bytes text.old ++ encode_utf8_all (text_behind grid at)) }
{
    if at.column + 1 == grid.columns {
        text.push('\n')?;
    }
    Ok(())
}
