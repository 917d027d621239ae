//! Shapes at their limits, and names, with ample memory.

use super::*;
use std::alloc::Global;
use std::test::Fail;

// The most elements of a shape.
const MOST: u64 = 1 << 40;

// Whether these lengths make a shape, which then has this rank and size.
fn makes(alloc: Global, lengths: &[u64], size: u64) -> bool {
    match Shape::of(alloc, lengths) {
        Ok(shape) => shape.rank() == lengths.len()
            && shape.size() == size
            && shape.copy().lengths() == lengths,
        Err(TooLarge) => false,
    }
}

#[test]
fn shapes_up_to_the_limits(rt: HostRuntime) {
    let alloc = rt.alloc();
    assert!(rt; makes(alloc, &[], 1));
    assert!(rt; makes(alloc, &[MOST], MOST));
    assert!(rt; makes(alloc, &[1 << 20, 1 << 20], MOST));
    assert!(rt; makes(alloc, &[MOST, MOST, MOST, MOST, 0], 0));
    assert!(rt; makes(alloc, &[1, 1, 1, 1, 1, 1, 1, 9], 9));
    assert!(rt; Shape::of(alloc, &[MOST + 1]).is_err());
    assert!(rt; Shape::of(alloc, &[0, MOST + 1]).is_err());
    assert!(rt; Shape::of(alloc, &[1 << 20, (1 << 20) + 1]).is_err());
    assert!(rt; Shape::of(alloc, &[MOST, MOST, MOST, MOST, MOST, MOST, MOST, MOST]).is_err());
    assert!(rt; Shape::of(alloc, &[1, 1, 1, 1, 1, 1, 1, 1, 1]).is_err());
}

#[test]
fn names_are_texts(rt: HostRuntime) -> Result<(), Fail> {
    let name = Name::of(rt.alloc(), "Δrate")?;
    let same = name.copy(rt.alloc())?;
    assert_eq!(rt; same.as_str(), "Δrate");
    assert!(rt; name.is(&same));
    assert!(rt; !name.is(&Name::of(rt.alloc(), "Δrat")?));
    Ok(())
}

// Both kinds of an allocator's error become want of memory.
fn two_names(alloc: Global) -> Result<Vec<Name>, NoMemory> {
    let mut names = Vec::with_capacity(alloc, 1)?;
    names.push(Name::of(alloc, "a")?)?;
    names.push(Name::of(alloc, "b")?)?;
    Ok(names)
}

#[test]
fn want_of_memory_by_a_question_mark(rt: HostRuntime) -> Result<(), Fail> {
    assert_eq!(rt; two_names(rt.alloc())?.len(), 2);
    Ok(())
}
