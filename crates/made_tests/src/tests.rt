use crate::along::{KEPT, ROTATED};
use crate::calls::called;
use crate::picked::{FROM_ZERO, PICKED};
use crate::rows::Row;
use crate::shapes::SHAPES;
use crate::values::{DIGITS, FOUND};
use apl_base::Cell;
use array_store::Store;
use made_leaf::MadeFault;
use std::alloc::Global;
use std::test::Fail;
use stored_leaves::{is_expected, placed};

// Whether a row holds, with ample memory.
fn holds(alloc: Global, row: &Row, from_one: bool) -> Result<bool, MadeFault> {
    let mut store = Store::new(alloc, 64);
    let right = placed(alloc, &row.2, &mut store)?;
    let left = placed(alloc, &row.1, &mut store)?;
    let origin = Cell::from(from_one);
    let answer = called(alloc, row.0, origin, &left, &right, &mut store);
    Ok(is_expected(answer, &row.3, &mut store))
}

// The first row of a table that does not hold.
fn first_wrong(alloc: Global, rows: &[Row], from_one: bool) -> Result<Option<usize>, MadeFault> {
    for (number, row) in rows.iter().enumerate() {
        if !holds(alloc, row, from_one)? {
            return Ok(Some(number));
        }
    }
    Ok(None)
}

#[test]
fn shapes_and_vectors(rt: HostRuntime) -> Result<(), Fail> {
    assert_eq!(rt; first_wrong(rt.alloc(), &SHAPES, true)?, None);
    Ok(())
}

#[test]
fn elements_found(rt: HostRuntime) -> Result<(), Fail> {
    assert_eq!(rt; first_wrong(rt.alloc(), &FOUND, true)?, None);
    Ok(())
}

#[test]
fn digits(rt: HostRuntime) -> Result<(), Fail> {
    assert_eq!(rt; first_wrong(rt.alloc(), &DIGITS, true)?, None);
    Ok(())
}

#[test]
fn elements_rotated(rt: HostRuntime) -> Result<(), Fail> {
    assert_eq!(rt; first_wrong(rt.alloc(), &ROTATED, true)?, None);
    Ok(())
}

#[test]
fn elements_kept(rt: HostRuntime) -> Result<(), Fail> {
    assert_eq!(rt; first_wrong(rt.alloc(), &KEPT, true)?, None);
    Ok(())
}

#[test]
fn elements_by_their_places(rt: HostRuntime) -> Result<(), Fail> {
    assert_eq!(rt; first_wrong(rt.alloc(), &PICKED, true)?, None);
    Ok(())
}

#[test]
fn places_from_zero(rt: HostRuntime) -> Result<(), Fail> {
    assert_eq!(rt; first_wrong(rt.alloc(), &FROM_ZERO, false)?, None);
    Ok(())
}
