//! The elements of a leaf, read in blocks.

ghost use Rattle.std.specs.Prelude.{◌≡◌, ◌+◌, ◌<◌, ◌≤◌, All, vec_capacity};
ghost use Rattle.apl_base.specs.Array.{size_of};
ghost use Rattle.apl_base.specs.Number.{IsCell};
ghost use Rattle.array_store.specs.Stores.{IsStore};
ghost use Rattle.drag_along.specs.Nodes.{leaf_kind, leaf_shape};
ghost use Rattle.drag_along.specs.Lawful.{IsLawfulLeaf};
ghost use Rattle.e_machine.specs.Forced.{AreRead, cells_from};
ghost use Rattle.apl_print.specs.declared.blocks.TheConstants.{BLOCK};

use apl_base::Cell;
use array_store::Store;
use drag_along::Leaf;
use e_machine::read_places;

/// How many cells are read at once.
pub(crate) const BLOCK: u64 = 1024;

/// Reads the next cells of a leaf, of which `done` were read before, in place of those that `cells` has, and says how
/// many they are.
pub(crate) fn read_block(leaf: &Leaf, done: u64, store: &mut Store, cells: &mut Vec<Cell>) -> u64
    requires lawful { IsLawfulLeaf store.old leaf.now }
    requires more { done < size_of (leaf_shape leaf.now) }
    requires room { BLOCK ≤ vec_capacity cells.old }
    ensures some { 0 < result }
    ensures within { done + result ≤ size_of (leaf_shape leaf.now) }
    ensures cells { cells.new.items ≡ cells_from store.old leaf.now done result }
    ensures lawful { All (IsCell (leaf_kind leaf.now)) cells.new.items }
    ensures capacity { BLOCK ≤ vec_capacity cells.new }
    ensures counted { AreRead store.old store.new leaf.now result }
    ensures store { IsStore store.new }
{
    let count = BLOCK.min(leaf.desc().size() - done);
    cells.clear();
    read_places(leaf, done, count, store, cells);
    count
}
