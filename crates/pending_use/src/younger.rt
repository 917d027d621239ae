//! Entries from a position on, which read an owner or do not.

ghost use Rattle.std.specs.Prelude.{◌≡◌, ℕ, ◌<◌, IsTrue, length, take, drop};
ghost use Rattle.apl_base.specs.Number.{IsCell};
ghost use Rattle.array_store.specs.Stores.{holders_of, kind_of, cells_of, with_cell};
ghost use Rattle.array_store.specs.Follows.{Holds};
ghost use Rattle.value_stack.specs.Stacks.{named_on, entries, Reads, IsLeast, IsLawfulStack};

use apl_base::Cell;
use array_store::{OwnerId, Store};
use value_stack::Stack;

/// Writes one cell of an owner that is held once, where no entry from a position on reads it: whether none does. Then
/// older entries alone name the owner, and those from there on mean what they meant. Otherwise nothing is written.
pub fn write_unread_from(
    owner: OwnerId,
    from: usize,
    place: u64,
    cell: Cell,
    stack: &Stack,
    store: &mut Store,
) -> bool
    requires alone { holders_of store.old owner ≡ 1 }
    requires place { place < length (cells_of store.old owner) }
    requires lawful { IsCell (kind_of store.old owner) cell }
    ensures written { IsTrue result → store.new ≡ with_cell store.old owner place cell }
    ensures older { IsTrue result
        → named_on stack.now owner ≡ named_on (take from stack.now) owner }
    ensures read { ¬ (IsTrue result) → (at : ℕ) × IsLeast (Reads owner) stack.now from at }
    ensures unchanged { ¬ (IsTrue result) → store.new ≡ store.old }
    ensures lawful { Holds store.old (named_on stack.now)
        → IsLawfulStack store.old (drop from stack.now)
        → IsLawfulStack store.new (drop from stack.now) }
    ensures means { Holds store.old (named_on stack.now)
        → IsLawfulStack store.old (drop from stack.now)
        → entries store.new (drop from stack.now) ≡ entries store.old (drop from stack.now) }
{
    if let Some(_) = stack.pending_on(owner, from) {
        return false;
    }
    store.write(owner, place, cell);
    true
}
