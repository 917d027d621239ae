//! New owners for cells that were made, and room for them.

ghost use Rattle.std.specs.Prelude.{◌≡◌, ◌^◌, ◌≤◌, [], ◌∷◌, length, All, IfOk, IfErr, OnOk, OnErr, vec_len, vec_capacity};
ghost use Rattle.apl_base.specs.Array.{size_of};
ghost use Rattle.apl_base.specs.Number.{IsCell};
ghost use Rattle.array_store.specs.Stores.{IsStore, HasRoom};
ghost use Rattle.e_machine.specs.Forced.{IsNewLeaf};
ghost use Rattle.made_leaf.specs.Made.{IsRoomFault};

use crate::faults::MadeFault;
use apl_base::{Cell, Kind, NoMemory, Shape};
use array_store::Store;
use drag_along::{Leaf, whole_view};
use std::alloc::Global;

/// An empty vector with room for `asked` cells, where the store can hold so many more. `WsFull` comes exactly where
/// it can not, with the cells that are held and those asked for.
pub fn room_for(asked: u64, store: &Store) -> Result<Vec<Cell>, MadeFault>
    ensures refused { IfErr result (IsRoomFault store.now asked) }
    ensures within { OnOk result (HasRoom store.now asked) }
    ensures empty { IfOk result (λ cells. cells.items ≡ []) }
    ensures room { IfOk result (λ cells. asked ≤ vec_capacity cells) }
    ensures store { IsStore store.now }
{
    Ok(store.begin(asked)?)
}

/// The leaf that reads a new owner of these cells, as an array of this shape and kind. After want of memory the store
/// is unchanged.
pub fn make_leaf(
    cells: Vec<Cell>,
    shape: &Shape,
    kind: Kind,
    store: &mut Store,
) -> Result<Leaf, NoMemory>
    requires count { length cells.items ≡ size_of shape.now }
    requires lawful { All (IsCell kind) cells.items }
    requires room { HasRoom store.old (size_of shape.now) }
    ensures made { IfOk result (IsNewLeaf (λ between. between ≡ store.old) store.new
        (record { kind = kind; shape = shape.now; cells = cells.items })) }
    ensures unchanged { OnErr result (store.new ≡ store.old) }
    ensures store { IsStore store.new }
{
    let owner = store.make(cells, kind)?;
    Ok(whole_view(owner, shape, kind))
}

/// The shape of a vector of `n` elements. It takes no memory.
pub fn vector_shape(alloc: Global, n: u64) -> Shape
    requires { n ≤ 2 ^ 40 }
    ensures { result ≡ n ∷ [] }
{
    match Shape::of(alloc, &[n]) {
        Ok(shape) => shape,
        Err(_) => unreachable!(),
    }
}
