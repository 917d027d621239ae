//! Uses of descriptors, proved from their public clauses alone.
#![tactic(auto)]

ghost use Rattle.std.specs.Prelude.{◌≡◌, ℕ, ◌-◌, ◌<◌, ◌++◌, pos, ◌+ℤ◌, ◌*ℤ◌, map, OnOk, IfOk};
ghost use Rattle.apl_base.specs.Array.{size_of};
ghost use Rattle.apl_base.specs.Number.{IsNumber};
ghost use Rattle.apl_base.specs.Selection.{upward};
ghost use Rattle.array_desc.specs.Rows.{number_on};

use apl_base::Cell;
use array_desc::{Desc, Row, RowWalk};
use std::alloc::{AllocError, Global};

#[cfg(test)]
mod tests;

/// The numbers of a descriptor at the places from `first` on, in row-major order, taken in rows of at most
/// `most` numbers.
pub fn numbers_from(
    alloc: Global,
    desc: &Desc,
    first: u64,
    most: u64,
) -> Result<Vec<Cell>, AllocError>
    requires { 0 < most }
    ensures { IfOk result (λ v. v.items
        ≡ map (number_on desc.now) (upward first (size_of desc.now.shape - first))) }
{
    let mut numbers = Vec::new(alloc);
    let mut walk = RowWalk::new(desc, first);
    let mut place = first;
    let size = desc.size();
    while place < size {
        let row = walk.next_row(most);
        push_row(&mut numbers, row)?;
        place += row.count;
    }
    Ok(numbers)
}

// Appends the numbers of a row.
fn push_row(numbers: &mut Vec<Cell>, row: Row) -> Result<(), AllocError>
    requires { (j : ℕ) → j < row.count → IsNumber (row.from +ℤ (row.step *ℤ pos j)) }
    ensures { OnOk result (numbers.new.items
        ≡ numbers.old.items ++ map (λ j. row.from +ℤ (row.step *ℤ pos j)) (upward 0 row.count)) }
{
    for j in 0..row.count {
        numbers.push(row.from + row.step * Cell::from(j))?;
    }
    Ok(())
}
