//! Cells that are written in place.

ghost use Rattle.std.specs.Prelude.{◌≡◌, ◌<◌, IfSome, IfNone, slice_set};
ghost use Rattle.apl_base.specs.Array.{size_of};
ghost use Rattle.apl_base.specs.Number.{IsCell};
ghost use Rattle.array_store.specs.Stores.{holders_of, kind_of, cells_of};
ghost use Rattle.array_store.specs.Follows.{Holds};
ghost use Rattle.drag_along.specs.Views.{FillsShape, StandsForArray, owner_array};
ghost use Rattle.value_stack.specs.Stacks.{named_on, entries, IsLawfulStack};
ghost use Rattle.pending_use.specs.Uses.{IsRead};

use apl_base::{Cell, Shape};
use array_store::{OwnerId, Store};
use drag_along::{Leaf, whole_view};
use value_stack::Stack;

/// Writes one cell of an owner that is held once, and gives the leaf that reads all of it, as an array of this shape.
/// Where an entry reads the owner nothing is written, and there is no leaf.
pub fn write_whole(
    owner: OwnerId,
    shape: &Shape,
    place: u64,
    cell: Cell,
    stack: &Stack,
    store: &mut Store,
) -> Option<Leaf>
    requires fills { FillsShape store.old owner shape.now }
    requires alone { holders_of store.old owner ≡ 1 }
    requires place { place < size_of shape.now }
    requires lawful { IsCell (kind_of store.old owner) cell }
    ensures written { IfSome result (λ leaf. StandsForArray store.new leaf
        (record (owner_array store.old owner shape.now) {
          cells = slice_set (cells_of store.old owner) place cell;
        })) }
    ensures read { IfNone result (IsRead stack.now owner) }
    ensures unchanged { IfNone result (store.new ≡ store.old) }
    ensures lawful { Holds store.old (named_on stack.now) → IsLawfulStack store.old stack.now
        → IsLawfulStack store.new stack.now }
    ensures means { Holds store.old (named_on stack.now) → IsLawfulStack store.old stack.now
        → entries store.new stack.now ≡ entries store.old stack.now }
{
    if let Some(_) = stack.pending_on(owner, 0) {
        return None;
    }
    let view = whole_view(owner, shape, store.kind(owner));
    store.write(owner, place, cell);
    Some(view)
}
