//! Copies of leaves in new owners.

ghost use Rattle.std.specs.Prelude.{◌≡◌, ◌^◌, ◌<◌, ◌≤◌, [], ◌∷◌, ◌++◌, All, IfOk, IfErr, OnOk, vec_len, vec_capacity};
ghost use Rattle.apl_base.specs.Array.{size_of};
ghost use Rattle.apl_base.specs.Number.{IsCell};
ghost use Rattle.array_store.specs.Stores.{IsStore, HasRoom};
ghost use Rattle.array_store.specs.Counting.{OnlyFetched};
ghost use Rattle.array_store.specs.Follows.{Follows, none};
ghost use Rattle.drag_along.specs.Nodes.{leaf_kind, leaf_shape};
ghost use Rattle.drag_along.specs.Lawful.{IsLawfulLeaf};
ghost use Rattle.drag_along.specs.Meaning.{leaf_array};
ghost use Rattle.e_machine.specs.Forced.{IsCopy, IsCopyFault, named_by_answer};

use crate::reads::read_places;
use apl_base::Cell;
use array_store::{BeginFault, Store};
use drag_along::{Leaf, whole_view};

/// A copy of a leaf's elements in a new owner, also where the leaf reads a whole owner. `WsFull` comes exactly where
/// there is no room for them, before any is read.
pub fn own(leaf: &Leaf, store: &mut Store) -> Result<Leaf, BeginFault>
    requires { IsLawfulLeaf store.old leaf.now }
    ensures copy { IfOk result (IsCopy store.old store.new leaf.now) }
    ensures room { OnOk result (HasRoom store.old (size_of (leaf_shape leaf.now))) }
    ensures follows { Follows store.old store.new none (named_by_answer result) }
    ensures refused { IfErr result (IsCopyFault store.old store.new leaf.now) }
    ensures store { IsStore store.new }
{
    let _counts = store.counts();
    let mut cells = store.begin(leaf.desc().size())?;
    read_all(leaf, store, &mut cells);
    let owner = store.make(cells, leaf.kind())?;
    Ok(whole_view(owner, &leaf.desc().shape, leaf.kind()))
}

// Puts the leaf's elements, in row-major order, into an empty vector that has room for them.
fn read_all(leaf: &Leaf, store: &mut Store, cells: &mut Vec<Cell>)
    requires lawful { IsLawfulLeaf store.old leaf.now }
    requires empty { cells.old.items ≡ [] }
    requires room { size_of (leaf_shape leaf.now) ≤ vec_capacity cells.old }
    ensures cells { cells.new.items ≡ (leaf_array store.old (leaf_shape leaf.now) leaf.now).cells }
    ensures counted { OnlyFetched store.old store.new (size_of (leaf_shape leaf.now)) }
    ensures lawful { All (IsCell (leaf_kind leaf.now)) cells.new.items }
    ensures store { IsStore store.new }
{
    // It tells the proof that the counts are numbers of a machine.
    let _counts = store.counts();
    read_places(leaf, 0, leaf.desc().size(), store, cells);
}
