//! Tests of all cells of an argument, a block at a time, before anything is made. They take no memory.
ghost use Rattle.std.specs.Prelude.{◌≡◌, pos, count_by};
ghost use Rattle.std.specs.Ordering.{int_eq};
ghost use Rattle.std.specs.List.{list_all};
ghost use Rattle.array_store.specs.Stores.{IsStore};
ghost use Rattle.array_store.specs.Counting.{OnlyFetched};
ghost use Rattle.drag_along.specs.Lawful.{IsLawfulLeaf};
ghost use Rattle.apl_model.specs.Made.{ones};
ghost use Rattle.leaf_names.specs.Variables.{array_of};
ghost use Rattle.made_fns.specs.Answers.{elements_in, is_between};

use crate::leaves::elements;
use apl_base::Cell;
use array_store::Store;
use drag_along::Leaf;
use made_leaf::read_block;

/// How many cells are read at once.
const BLOCK: u64 = 64;

/// Whether each cell of a leaf is at least `low` and at most `high`. Each is fetched once at most.
pub fn all_between(leaf: &Leaf, low: Cell, high: Cell, store: &mut Store) -> bool
    requires lawful { IsLawfulLeaf store.old leaf.now }
    ensures value { result
        ≡ list_all (is_between low high) (array_of store.old leaf.now).cells }
    ensures counted { OnlyFetched store.old store.new (elements_in leaf.now) }
    ensures store { IsStore store.new }
{
    // It tells the proof that the store is one.
    let _counts = store.counts();
    let count = elements(leaf);
    let mut block = [0; BLOCK as usize];
    let mut done = 0;
    while done < count {
        let more = BLOCK.min(count - done);
        let part = &mut block[..more as usize];
        read_block(leaf, done, store, part);
        if !are_between(part, low, high) {
            return false;
        }
        done += more;
    }
    true
}

// Whether each of these cells is.
fn are_between(cells: &[Cell], low: Cell, high: Cell) -> bool
    ensures { result ≡ list_all (is_between low high) cells.now }
{
    cells.iter().all(|cell| low <= *cell && *cell <= high)
}

/// How many cells of a leaf are 1. Each is fetched once at most.
pub fn ones_of(leaf: &Leaf, store: &mut Store) -> u64
    requires lawful { IsLawfulLeaf store.old leaf.now }
    ensures value { result ≡ ones (array_of store.old leaf.now).cells }
    ensures counted { OnlyFetched store.old store.new (elements_in leaf.now) }
    ensures store { IsStore store.new }
{
    // It tells the proof that the store is one.
    let _counts = store.counts();
    let count = elements(leaf);
    let mut block = [0; BLOCK as usize];
    let mut found = 0;
    let mut done = 0;
    while done < count {
        let more = BLOCK.min(count - done);
        let part = &mut block[..more as usize];
        read_block(leaf, done, store, part);
        found += ones_among(part);
        done += more;
    }
    found
}

// How many of these cells are 1.
fn ones_among(cells: &[Cell]) -> u64
    ensures { result ≡ count_by (λ z. int_eq z (pos 1)) cells.now }
{
    cells.iter().filter(|cell| **cell == 1).count() as u64
}
