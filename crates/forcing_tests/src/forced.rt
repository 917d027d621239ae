//! What is forced: elements, counts and the first fault.

use crate::arrays::{listed, stored};
use crate::segments::{chain, column, halves_and_parts};
use apl_base::{Cell, Shape};
use array_store::Store;
use e_machine::{ForceFault, force};
use std::alloc::Global;
use std::test::Fail;

// Whether a chain over a stored array has these elements, each function was applied at each, each was fetched once, and
// as many cells were made again.
fn chain_gives(
    alloc: Global,
    lengths: &[u64],
    values: &[i8],
    functions: usize,
    wanted: &[Cell],
) -> Result<bool, Fail> {
    let mut store = Store::new(alloc, 8);
    let shape = Shape::of(alloc, lengths)?;
    let size = shape.size();
    let leaf = stored(&mut store, &shape, values)?;
    let s = chain(alloc, &leaf, functions, &store)?;
    let made = force(&s, &mut store)?;
    let counts = store.counts();
    let counted = counts.applied == size.saturating_mul(functions as u64)
        && counts.fetched == size
        && counts.made == size.saturating_add(size);
    let cells = listed(alloc, &made, &mut store)?;
    Ok(counted && cells.as_slice() == wanted)
}

// Whether `(A÷2)+1÷B` faults at this column, or at none, for the halves of these values.
fn halves_fault_at(alloc: Global, values: &[i8], at: Option<u32>) -> Result<bool, Fail> {
    let mut store = Store::new(alloc, 8);
    let four = Shape::of(alloc, &[4])?;
    let vector = stored(&mut store, &four, values)?;
    let s = halves_and_parts(alloc, &vector, &store)?;
    let found = force(&s, &mut store).err();
    let wanted = at.map(|at| ForceFault::Fault { place: column(at) });
    Ok(found == wanted && store.counts().applied <= 6)
}

// Chains of functions give their elements, or the fault of the least node that fails.
#[test]
fn elements_and_faults(rt: HostRuntime) -> Result<(), Fail> {
    let alloc = rt.alloc();
    assert!(rt; chain_gives(alloc, &[], &[5], 1, &[-5])?);
    assert!(rt; chain_gives(alloc, &[2, 2], &[1, 2, 3, 4], 3, &[-1, 0, 1, 2])?);
    assert!(rt; chain_gives(alloc, &[2, 1, 2], &[1, 1, 1, 1], 64, &[1, -31, -63, -95])?);
    assert!(rt; chain_gives(alloc, &[2, 0, 3], &[], 3, &[])?);
    // The least node that fails.
    assert!(rt; halves_fault_at(alloc, &[8, 6, 1, 1], None)?);
    assert!(rt; halves_fault_at(alloc, &[7, 6, 1, 0], Some(8))?);
    assert!(rt; halves_fault_at(alloc, &[7, 5, 1, 1], Some(3))?);
    assert!(rt; halves_fault_at(alloc, &[8, 5, 1, 1], Some(3))?);
    Ok(())
}
