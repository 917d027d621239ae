//! Names that share an owner, hide one another, and are set again.

ghost use Rattle.names_use.specs.Uses.{IsSound};

use crate::{
    enter, first_element, forget, holders, leave, nothing, set_copies, set_first, set_reversed,
    share,
};
use apl_base::{Cell, Name, NoMemory, Shape};
use array_store::{BeginFault, Store};
use drag_along::Leaf;
use name_table::Names;
use std::alloc::Global;
use std::test::Fail;

#[derive(Drop)]
struct Three {
    a: Name,
    b: Name,
    c: Name,
}

fn named(alloc: Global) -> Result<Three, NoMemory> {
    Ok(Three {
        a: Name::of(alloc, "A")?,
        b: Name::of(alloc, "B")?,
        c: Name::of(alloc, "C")?,
    })
}

// A vector of so many copies of a number, set.
fn vector(
    alloc: Global,
    names: &mut Names,
    store: &mut Store,
    name: &Name,
    number: i8,
    count: u8,
) -> Result<(), BeginFault>
    requires sound { IsSound store.old names.old }
    ensures sound { IsSound store.new names.new }
{
    match Shape::of(alloc, &[u64::from(count)]) {
        Ok(shape) => set_copies(alloc, names, store, name, Cell::from(number), &shape),
        Err(_) => Ok(()),
    }
}

// The key of the owner that a name's leaf names.
fn key_of(names: &Names, name: &Name) -> Option<usize> {
    match names.get(name) {
        Some(Leaf::Stored { owner, .. }) => Some(owner.key()),
        _ => None,
    }
}

// Whether these two are the names that are set, in this order.
fn are_two(names: &Names, first: &Name, second: &Name) -> Result<bool, NoMemory> {
    let set = names.set_names()?;
    Ok(set.len() == 2 && set[0].is(first) && set[1].is(second))
}

// Three names share an owner; one is set to other cells, then the others, so that the owner goes and its key is used again.
fn shared(
    alloc: Global,
    names: &mut Names,
    store: &mut Store,
    of: &Three,
) -> Result<bool, BeginFault>
    requires sound { IsSound store.old names.old }
{
    vector(alloc, names, store, &of.a, 5, 3)?;
    share(names, store, &of.b, &of.a)?;
    share(names, store, &of.c, &of.a)?;
    let together = store.live();
    let key = key_of(names, &of.c);
    vector(alloc, names, store, &of.a, 7, 2)?;
    let apart = store.live();
    let left = first_element(names, store, &of.b);
    vector(alloc, names, store, &of.b, 1, 1)?;
    vector(alloc, names, store, &of.c, 2, 1)?;
    vector(alloc, names, store, &of.a, 8, 3)?;
    let again = key_of(names, &of.a);
    let beside = first_element(names, store, &of.b);
    Ok(
        together == 3
            && apart == 5
            && left == Some(5)
            && again == key
            && beside == Some(1)
            && store.live() == 5,
    )
}

#[test]
fn three_names_share_an_owner(rt: HostRuntime) -> Result<(), Fail> {
    let (mut names, mut store) = nothing(rt.alloc(), 9);
    let of = named(rt.alloc())?;
    let holds = shared(rt.alloc(), &mut names, &mut store, &of)?;
    assert!(rt; holds);
    Ok(())
}

// A frame hides a global; what is set in it goes with it, and what is set among the globals stays.
fn hidden(
    alloc: Global,
    names: &mut Names,
    store: &mut Store,
    of: &Three,
) -> Result<bool, BeginFault>
    requires sound { IsSound store.old names.old }
{
    vector(alloc, names, store, &of.a, 1, 1)?;
    vector(alloc, names, store, &of.b, 2, 1)?;
    enter(names, store, of.a.copy(alloc)?)?;
    let unset = names.get(&of.a).is_none();
    vector(alloc, names, store, &of.a, 3, 2)?;
    vector(alloc, names, store, &of.b, 4, 1)?;
    let inside = first_element(names, store, &of.a);
    let live = store.live();
    let left = leave(names, store);
    let outside = first_element(names, store, &of.a);
    let kept = first_element(names, store, &of.b);
    Ok(
        unset
            && left
            && live == 4
            && store.live() == 2
            && inside == Some(3)
            && outside == Some(1)
            && kept == Some(4),
    )
}

#[test]
fn a_frame_hides_a_global(rt: HostRuntime) -> Result<(), Fail> {
    let (mut names, mut store) = nothing(rt.alloc(), 9);
    let of = named(rt.alloc())?;
    let holds = hidden(rt.alloc(), &mut names, &mut store, &of)?;
    assert!(rt; holds);
    Ok(())
}

// Globals are erased, and one is set again.
fn erased(
    alloc: Global,
    names: &mut Names,
    store: &mut Store,
    of: &Three,
) -> Result<bool, BeginFault>
    requires sound { IsSound store.old names.old }
{
    vector(alloc, names, store, &of.b, 2, 2)?;
    vector(alloc, names, store, &of.c, 3, 1)?;
    vector(alloc, names, store, &of.a, 1, 1)?;
    let gone = forget(names, store, &of.c);
    let two = are_two(names, &of.a, &of.b)?;
    let live = store.live();
    let other = forget(names, store, &of.b);
    vector(alloc, names, store, &of.c, 4, 1)?;
    let again = are_two(names, &of.a, &of.c)?;
    Ok(gone && other && two && again && live == 3 && store.live() == 2)
}

#[test]
fn a_global_is_erased_and_set_again(rt: HostRuntime) -> Result<(), Fail> {
    let (mut names, mut store) = nothing(rt.alloc(), 9);
    let of = named(rt.alloc())?;
    let holds = erased(rt.alloc(), &mut names, &mut store, &of)?;
    assert!(rt; holds);
    Ok(())
}

// A part of a large owner is copied where there is room, and refused where there is none. What was refused holds
// nothing.
fn copied(
    alloc: Global,
    names: &mut Names,
    store: &mut Store,
    of: &Three,
) -> Result<bool, BeginFault>
    requires sound { IsSound store.old names.old }
{
    vector(alloc, names, store, &of.a, 6, 3)?;
    set_first(alloc, names, store, &of.b, &of.a)?;
    let live = store.live();
    let apart = key_of(names, &of.b) != key_of(names, &of.a);
    let refused = set_first(alloc, names, store, &of.c, &of.a).err();
    let unset = names.get(&of.c).is_none();
    let gone = forget(names, store, &of.a);
    let full = BeginFault::WsFull { live: 4, asked: 1 };
    Ok(apart && unset && gone && live == 4 && refused == Some(full) && store.live() == 1)
}

#[test]
fn a_part_is_copied_where_there_is_room(rt: HostRuntime) -> Result<(), Fail> {
    let (mut names, mut store) = nothing(rt.alloc(), 4);
    let of = named(rt.alloc())?;
    let holds = copied(rt.alloc(), &mut names, &mut store, &of)?;
    assert!(rt; holds);
    Ok(())
}

// All of an owner turned round keeps the owner, which has a holder more; a part of it does not.
fn turned(
    alloc: Global,
    names: &mut Names,
    store: &mut Store,
    of: &Three,
) -> Result<bool, BeginFault>
    requires sound { IsSound store.old names.old }
{
    vector(alloc, names, store, &of.a, 6, 3)?;
    let alone = holders(names, store, &of.a);
    set_reversed(names, store, &of.b, &of.a)?;
    let shared = holders(names, store, &of.a);
    let kept = key_of(names, &of.b) == key_of(names, &of.a) && store.live() == 3;
    set_first(alloc, names, store, &of.c, &of.a)?;
    let apart = key_of(names, &of.c) != key_of(names, &of.a) && store.live() == 4;
    let own = holders(names, store, &of.c);
    let still = holders(names, store, &of.a);
    Ok(alone == Some(1) && shared == Some(2) && kept && apart && own == Some(1) && still == shared)
}

#[test]
fn a_reversed_whole_keeps_its_owner(rt: HostRuntime) -> Result<(), Fail> {
    let (mut names, mut store) = nothing(rt.alloc(), 9);
    let of = named(rt.alloc())?;
    let holds = turned(rt.alloc(), &mut names, &mut store, &of)?;
    assert!(rt; holds);
    Ok(())
}
