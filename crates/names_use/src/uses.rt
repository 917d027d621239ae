//! Names that are set to copies, to what other names have, and to parts of it.

ghost use Rattle.std.specs.Prelude.{◌≡◌};
ghost use Rattle.apl_base.specs.Number.{IsNumber};
ghost use Rattle.names_use.specs.Uses.{IsSound};

use apl_base::{Cell, Kind, Name, NoMemory, Shape};
use array_desc::Desc;
use array_store::{BeginFault, Store};
use drag_along::Leaf;
use e_machine::{own, read_at};
use name_table::Names;
use std::alloc::Global;

/// No names, and a store for so many cells. It takes no memory.
pub fn nothing(alloc: Global, limit: u64) -> (Names, Store)
    ensures { IsSound result.1 result.0 }
{
    (Names::new(alloc), Store::new(alloc, limit))
}

/// Sets a name to as many copies of a number as the shape has places, in an owner of their own.
pub fn set_copies(
    alloc: Global,
    names: &mut Names,
    store: &mut Store,
    name: &Name,
    number: Cell,
    shape: &Shape,
) -> Result<(), BeginFault>
    requires number { IsNumber number }
    requires sound { IsSound store.old names.old }
    ensures sound { IsSound store.new names.new }
{
    let mut desc = Desc::one(alloc, number);
    desc.extend(shape);
    let numbers = Leaf::Gen {
        desc,
        kind: Kind::Num,
    };
    let leaf = own(&numbers, store)?;
    names.set(name, leaf, store)
}

/// Sets a name to what another one has, if it is set. Nothing is counted.
pub fn share(names: &mut Names, store: &mut Store, to: &Name, from: &Name) -> Result<(), BeginFault>
    requires sound { IsSound store.old names.old }
    ensures sound { IsSound store.new names.new }
    ensures free { store.new.counts ≡ store.old.counts }
{
    // That no owner has more holders than a number of 128 bits tells.
    let _depth = names.depth();
    let Some(found) = names.get(from) else {
        return Ok(());
    };
    let leaf = found.held(store);
    names.set(to, leaf, store)
}

/// Sets a name to the first cell of the owner that another one names, where there is one.
pub fn set_first(
    alloc: Global,
    names: &mut Names,
    store: &mut Store,
    to: &Name,
    from: &Name,
) -> Result<(), BeginFault>
    requires sound { IsSound store.old names.old }
    ensures sound { IsSound store.new names.new }
{
    // That no owner has more holders than a number of 128 bits tells.
    let _depth = names.depth();
    let Some(Leaf::Stored { owner, kind, .. }) = names.get(from) else {
        return Ok(());
    };
    let owner = *owner;
    let kind = *kind;
    if store.cells(owner) == 0 {
        return Ok(());
    }
    store.hold(owner);
    let leaf = Leaf::Stored {
        owner,
        desc: Desc::one(alloc, 0),
        kind,
    };
    names.set(to, leaf, store)
}

/// Sets a name to what another one has, turned round along its first axis, where it is stored and has one. Nothing is
/// counted.
pub fn set_reversed(
    names: &mut Names,
    store: &mut Store,
    to: &Name,
    from: &Name,
) -> Result<(), BeginFault>
    requires sound { IsSound store.old names.old }
    ensures sound { IsSound store.new names.new }
    ensures free { store.new.counts ≡ store.old.counts }
{
    // That no owner has more holders than a number of 128 bits tells.
    let _depth = names.depth();
    let Some(Leaf::Stored { owner, desc, kind }) = names.get(from) else {
        return Ok(());
    };
    if desc.shape.rank() == 0 {
        return Ok(());
    }
    let mut reversed = desc.copy();
    reversed.reverse(0);
    let turned = Leaf::Stored {
        owner: *owner,
        desc: reversed,
        kind: *kind,
    };
    let leaf = turned.held(store);
    names.set(to, leaf, store)
}

/// How many leaves hold the owner that a name names, where it names one.
pub fn holders(names: &Names, store: &Store, name: &Name) -> Option<u128>
    requires sound { IsSound store.now names.now }
{
    let Some(Leaf::Stored { owner, .. }) = names.get(name) else {
        return None;
    };
    Some(store.holders(*owner))
}

/// The first element of what a name has, where there is one.
pub fn first_element(names: &Names, store: &mut Store, name: &Name) -> Option<Cell>
    requires sound { IsSound store.old names.now }
    ensures sound { IsSound store.new names.now }
{
    let leaf = names.get(name)?;
    if leaf.desc().size() == 0 {
        return None;
    }
    let index = leaf.desc().shape.index_of(0);
    Some(read_at(leaf, index.as_slice(), store).cell)
}

/// Adds a frame in which one name is declared.
pub fn enter(names: &mut Names, store: &Store, declared: Name) -> Result<(), NoMemory>
    requires sound { IsSound store.now names.old }
    ensures sound { IsSound store.now names.new }
{
    let declared = [declared];
    names.bind(&declared)
}

/// Takes the innermost frame away, where there is one, and answers whether there was.
pub fn leave(names: &mut Names, store: &mut Store) -> bool
    requires sound { IsSound store.old names.old }
    ensures sound { IsSound store.new names.new }
{
    if names.depth() == 0 {
        return false;
    }
    names.unwind(store);
    true
}

/// Makes a global unset, where there is no frame, and answers whether there was none.
pub fn forget(names: &mut Names, store: &mut Store, name: &Name) -> bool
    requires sound { IsSound store.old names.old }
    ensures sound { IsSound store.new names.new }
{
    if names.depth() != 0 {
        return false;
    }
    names.erase(name, store);
    true
}
