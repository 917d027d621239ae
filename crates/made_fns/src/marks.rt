//! Elements of a leaf beside the bits of another that are 1, a block at a time.
ghost use Rattle.std.specs.Prelude.{◌≡◌, ◌+◌, ◌≤◌, pos, if◌then◌else◌, [], ◌∷◌, ◌++◌, map, length, slice_index_or, vec_len, vec_capacity};
ghost use Rattle.std.specs.Ordering.{int_eq};
ghost use Rattle.array_store.specs.Stores.{IsStore};
ghost use Rattle.array_store.specs.Counting.{OnlyFetched};
ghost use Rattle.drag_along.specs.Lawful.{IsLawfulLeaf};
ghost use Rattle.apl_model.specs.Made.{ones, ones_from};
ghost use Rattle.leaf_names.specs.Variables.{array_of};
ghost use Rattle.made_fns.specs.Answers.{elements_in};

use crate::extends::is_one;
use crate::leaves::elements;
use apl_base::Cell;
use array_store::Store;
use drag_along::Leaf;
use made_leaf::read_block;

// How many cells are read at once.
const BLOCK: u64 = 64;

/// Puts the elements of B at the places where A is 1 into an empty vector that has room for them. Each element of both is
/// fetched once. It takes no memory.
pub fn keep_marked(a: &Leaf, b: &Leaf, store: &mut Store, cells: &mut Vec<Cell>)
    requires a { IsLawfulLeaf store.old a.now }
    requires b { IsLawfulLeaf store.old b.now }
    requires same { elements_in a.now ≡ elements_in b.now }
    requires empty { cells.old.items ≡ [] }
    requires room { ones (array_of store.old a.now).cells ≤ vec_capacity cells.old }
    ensures cells { cells.new.items
        ≡ map (λ v. slice_index_or (array_of store.old b.now).cells v (pos 0))
        (ones_from 0 (array_of store.old a.now).cells) }
    ensures counted { OnlyFetched store.old store.new (elements_in a.now + elements_in b.now) }
    ensures store { IsStore store.new }
{
    // It tells the proof that the store is one.
    let _counts = store.counts();
    let count = elements(a);
    let mut marks = [0; BLOCK as usize];
    let mut block = [0; BLOCK as usize];
    let mut done = 0;
    while done < count {
        let more = BLOCK.min(count - done);
        let bits = &mut marks[..more as usize];
        let part = &mut block[..more as usize];
        read_block(a, done, store, bits);
        read_block(b, done, store, part);
        append_marked(bits, part, cells);
        done += more;
    }
}

// Appends the items beside the bits that are 1 to a vector that has room for them.
fn append_marked(bits: &[Cell], items: &[Cell], cells: &mut Vec<Cell>)
    requires same { length bits.now ≡ length items.now }
    requires room { vec_len cells.old + ones bits.now ≤ vec_capacity cells.old }
    ensures items { cells.new.items ≡ cells.old.items
        ++ map (λ v. slice_index_or items.now v (pos 0)) (ones_from 0 bits.now) }
    ensures capacity { vec_capacity cells.old ≤ vec_capacity cells.new }
{
    for (i, bit) in bits.iter().enumerate() {
        append_at(bit, items[i], cells);
    }
}

// Appends an item to a vector that has room for it where the bit is 1.
fn append_at(bit: &Cell, item: Cell, cells: &mut Vec<Cell>)
    requires { vec_len cells.old + (if int_eq bit.now (pos 1) then 1 else 0)
        ≤ vec_capacity cells.old }
    ensures items { cells.new.items
        ≡ cells.old.items ++ (if int_eq bit.now (pos 1) then item ∷ [] else []) }
    ensures capacity { vec_capacity cells.old ≤ vec_capacity cells.new }
{
    if is_one(bit) {
        let Ok(()) = cells.push(item) else {
            unreachable!()
        };
    }
}
