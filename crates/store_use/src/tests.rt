//! An owner that is made, held, written and let go.

ghost use Rattle.std.specs.Prelude.{◌≡◌, [], All, IfOk};
ghost use Rattle.apl_base.specs.Number.{IsNumber};

use crate::{side_by_side, taken_in_and_read, written_and_let_go};
use apl_base::Cell;
use array_store::Store;
use std::alloc::AllocError;
use std::test::Fail;

fn filled(mut cells: Vec<Cell>, values: &[i8]) -> Result<Vec<Cell>, AllocError>
    requires { cells.items ≡ [] }
    ensures { IfOk result (λ v. All IsNumber v.items) }
{
    for value in values {
        cells.push(Cell::from(*value))?;
    }
    Ok(cells)
}

#[test]
fn what_was_written_is_read(rt: HostRuntime) -> Result<(), Fail> {
    let mut store = Store::new(rt.alloc(), 9);
    let cells = filled(store.begin(2)?, &[5, -2])?;
    assert_eq!(rt; cells.len(), 2);
    assert_eq!(rt; written_and_let_go(&mut store, cells, 1, 70)?, 70);
    Ok(())
}

#[test]
fn each_owner_has_its_own(rt: HostRuntime) -> Result<(), Fail> {
    let mut store = Store::new(rt.alloc(), 9);
    let left = filled(store.begin(2)?, &[5, -2])?;
    let right = filled(store.begin(2)?, &[8, 8])?;
    assert_eq!(rt; left.len(), 2);
    assert_eq!(rt; right.len(), 2);
    assert_eq!(rt; side_by_side(&mut store, left, right, 1, 70)?, (-2, 70));
    Ok(())
}

#[test]
fn what_was_taken_in_is_read(rt: HostRuntime) -> Result<(), Fail> {
    let mut store = Store::new(rt.alloc(), 9);
    let cells = filled(store.begin(2)?, &[5, -2])?;
    assert_eq!(rt; cells.len(), 2);
    let mut into = store.begin(2)?;
    let owner = taken_in_and_read(&mut store, cells, &mut into)?;
    assert_eq!(rt; into.first().copied(), Some(5));
    assert_eq!(rt; into.last().copied(), Some(-2));
    assert_eq!(rt; store.counts().fetched, 2);
    assert_eq!(rt; store.holders(owner), 1);
    Ok(())
}
