//! The tables, run.

use crate::desks::{Desk, Newest, Step};
use crate::tables::{Expected, Row, SELECTIONS, SUBSCRIPTS, WAITING};
use apl_base::{Cell, Dya, Place};
use pending_steps::Halt;
use std::alloc::Global;
use std::test::Fail;
use stored_leaves::Argument;

// The newest entry after steps, each of which stands at the column of its number, and what was counted.
fn after(alloc: Global, steps: &[Step]) -> Result<(Newest, u64), Halt> {
    let mut desk = Desk::new(alloc, 100);
    let mut place = Place { line: 1, column: 0 };
    for step in steps {
        place.column = place.column.saturating_add(1);
        desk.does(alloc, step, place, 1)?;
    }
    let newest = desk.newest(alloc)?;
    let counts = desk.store.counts();
    let counted = counts
        .fetched
        .saturating_add(counts.made)
        .saturating_add(counts.applied);
    Ok((newest, counted))
}

// Whether the cells are these numbers.
fn are(cells: &[Cell], numbers: &[i64]) -> bool {
    let mut pairs = cells.iter().zip(numbers.iter());
    cells.len() == numbers.len() && pairs.all(|(cell, number)| *cell == Cell::from(*number))
}

// Whether a row holds, with ample memory.
fn holds(alloc: Global, row: &Row) -> bool {
    match (after(alloc, row.0), row.1) {
        (Ok((newest, counted)), Expected::Array(lengths, numbers)) => {
            newest.shape.lengths() == lengths
                && are(newest.cells.as_slice(), numbers)
                && counted <= row.2
        }
        (Err(Halt::Error { kind, place }), Expected::Fault(wanted, column)) => {
            kind == wanted && place.column == column
        }
        _ => false,
    }
}

// The number of the first row of a table that does not hold.
fn first_wrong(alloc: Global, rows: &[Row]) -> Option<usize> {
    rows.iter().position(|row| !holds(alloc, row))
}

#[test]
fn selections(rt: HostRuntime) -> Result<(), Fail> {
    assert_eq!(rt; first_wrong(rt.alloc(), &SELECTIONS), None);
    Ok(())
}

#[test]
fn functions_that_wait(rt: HostRuntime) -> Result<(), Fail> {
    assert_eq!(rt; first_wrong(rt.alloc(), &WAITING), None);
    Ok(())
}

#[test]
fn subscripts(rt: HostRuntime) -> Result<(), Fail> {
    assert_eq!(rt; first_wrong(rt.alloc(), &SUBSCRIPTS), None);
    Ok(())
}

// The numbers 1 and 2 added so often to themselves, which is more than wait at a time.
#[test]
fn many_functions(rt: HostRuntime) -> Result<(), Fail> {
    let alloc = rt.alloc();
    let numbers = Step::Put(Argument::Line(1, 2));
    let place = Place { line: 1, column: 1 };
    let mut desk = Desk::new(alloc, 100);
    desk.does(alloc, &numbers, place, 1)?;
    for _ in 0..70 {
        desk.does(alloc, &numbers, place, 1)?;
        desk.does(alloc, &Step::Two(Dya::Add), place, 1)?;
    }
    let sum = desk.newest(alloc)?;
    assert!(rt; are(sum.cells.as_slice(), &[71, 142]));
    Ok(())
}
