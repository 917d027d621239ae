//! Operands that are not stored, and the reading of what came of them.

ghost use Rattle.std.specs.Prelude.{◌≡◌, ℕ, ◌+◌, length, OnOk};
ghost use Rattle.apl_base.specs.Number.{IsNumber};
ghost use Rattle.array_store.specs.Stores.{StoreView};
ghost use Rattle.array_store.specs.Follows.{Holds};
ghost use Rattle.drag_along.specs.Nodes.{named_by_leaf};
ghost use Rattle.drag_along.specs.Lawful.{IsLawfulLeaf};
ghost use Rattle.value_stack.specs.Stacks.{named_on, IsLawfulStack};

use apl_base::{Cell, Kind, NoMemory, Shape};
use array_desc::Desc;
use array_store::Store;
use drag_along::Leaf;
use leaf_steps::take_one;
use made_leaf::read_cells;
use pending_steps::{Halt, push_leaf};
use std::alloc::Global;
use value_stack::Stack;

/// The numbers from 0 up, in row-major order.
pub fn counting(shape: &Shape) -> Leaf
    ensures lawful { (store : StoreView) → IsLawfulLeaf store result }
    ensures names { (key : ℕ) → named_by_leaf result key ≡ 0 }
{
    Leaf::Gen {
        desc: Desc::whole(shape),
        kind: Kind::Num,
    }
}

/// One number everywhere.
pub fn everywhere(alloc: Global, number: Cell, shape: &Shape) -> Leaf
    requires { IsNumber number }
    ensures lawful { (store : StoreView) → IsLawfulLeaf store result }
    ensures names { (key : ℕ) → named_by_leaf result key ≡ 0 }
{
    let mut desc = Desc::one(alloc, number);
    desc.extend(shape);
    Leaf::Gen {
        desc,
        kind: Kind::Num,
    }
}

/// A leaf that is not stored comes as the newest entry.
pub fn push_unstored(
    alloc: Global,
    leaf: Leaf,
    stack: &mut Stack,
    store: &Store,
) -> Result<(), NoMemory>
    requires leaf { (s : StoreView) → IsLawfulLeaf s leaf }
    requires names { (key : ℕ) → named_by_leaf leaf key ≡ 0 }
    requires lawful { IsLawfulStack store.now stack.old }
    requires held { Holds store.now (named_on stack.old) }
    ensures lawful { OnOk result (IsLawfulStack store.now stack.new) }
    ensures held { OnOk result (Holds store.now (named_on stack.new)) }
    ensures length { OnOk result (length stack.new ≡ length stack.old + 1) }
{
    push_leaf(alloc, leaf, stack, store)
}

/// The elements of the newest entry, in row-major order, or none where there is no entry.
pub fn newest_cells(alloc: Global, stack: &mut Stack, store: &mut Store) -> Result<Vec<Cell>, Halt>
    requires lawful { IsLawfulStack store.old stack.old }
    requires held { Holds store.old (named_on stack.old) }
{
    if stack.is_empty() {
        return Ok(Vec::new(alloc));
    }
    let leaf = take_one(alloc, stack, store)?;
    Ok(read_cells(&leaf, store)?)
}
