//! Cells of arguments read by blocks.

ghost use Rattle.std.specs.Prelude.{◌≡◌, ℕ, ◌+◌, ◌<◌, ◌≤◌, pos, ◌+ℤ◌, ◌*ℤ◌, ◌++◌, length, All, IfOk, OnOk, vec_len, vec_capacity};
ghost use Rattle.std.specs.Int.{int_wrap};
ghost use mir.Syntax.{w128};
ghost use Rattle.apl_base.specs.Array.{size_of};
ghost use Rattle.apl_base.specs.Number.{IsCell, IsNumber};
ghost use Rattle.array_store.specs.Stores.{IsStore};
ghost use Rattle.array_store.specs.Counting.{OnlyFetched};
ghost use Rattle.drag_along.specs.Nodes.{leaf_kind, leaf_shape};
ghost use Rattle.drag_along.specs.Lawful.{IsLawfulLeaf};
ghost use Rattle.e_machine.specs.Rows.{numbers_along, row_cells, CanRead};
ghost use Rattle.e_machine.specs.Forced.{AreRead, cells_from};
ghost use Rattle.apl_model.specs.Whole.{first};
ghost use Rattle.leaf_names.specs.Variables.{array_of};

use apl_base::{Cell, NoMemory};
use array_desc::{Row, RowWalk};
use array_store::Store;
use drag_along::Leaf;
use e_machine::{read_at, read_places};

/// Appends all cells of a leaf in row-major order to a vector with room for them. Each is fetched once where the leaf is
/// stored. It takes no memory.
pub fn read_all(leaf: &Leaf, store: &mut Store, into: &mut Vec<Cell>)
    requires lawful { IsLawfulLeaf store.old leaf.now }
    requires room { vec_len into.old + size_of (leaf_shape leaf.now) ≤ vec_capacity into.old }
    ensures cells { into.new.items ≡ into.old.items ++ (array_of store.old leaf.now).cells }
    ensures capacity { vec_capacity into.old ≤ vec_capacity into.new }
    ensures counted { OnlyFetched store.old store.new (size_of (leaf_shape leaf.now)) }
    ensures lawful { All (IsCell (leaf_kind leaf.now)) (array_of store.old leaf.now).cells }
    ensures store { IsStore store.new }
{
    // It tells the proof that the counts are numbers of a machine.
    let _counts = store.counts();
    read_places(leaf, 0, leaf.desc().size(), store, into);
}

/// All cells of a leaf in row-major order, in a vector of their own. Each is fetched once where the leaf is stored. After
/// want of memory the store is unchanged.
pub fn read_cells(leaf: &Leaf, store: &mut Store) -> Result<Vec<Cell>, NoMemory>
    requires lawful { IsLawfulLeaf store.old leaf.now }
    ensures cells { IfOk result (λ cells. cells.items ≡ (array_of store.old leaf.now).cells) }
    ensures counted { OnlyFetched store.old store.new (size_of (leaf_shape leaf.now)) }
    ensures lawful { OnOk result
        (All (IsCell (leaf_kind leaf.now)) (array_of store.old leaf.now).cells) }
    ensures store { IsStore store.new }
{
    // It tells the proof that the store is one.
    let _counts = store.counts();
    let desc = leaf.desc();
    let mut cells = Vec::with_capacity(desc.shape.allocator(), desc.size() as usize)?;
    read_all(leaf, store, &mut cells);
    Ok(cells)
}

/// The first cell of a leaf in row-major order, or 0 where it has none. It fetches one cell at most, and takes no
/// memory.
pub fn first_cell(leaf: &Leaf, store: &mut Store) -> Cell
    requires lawful { IsLawfulLeaf store.old leaf.now }
    ensures value { result ≡ first (array_of store.old leaf.now) }
    ensures counted { OnlyFetched store.old store.new 1 }
    ensures store { IsStore store.new }
{
    // It tells the proof that the counts are numbers of a machine.
    let _counts = store.counts();
    let mut cell = [0];
    if leaf.desc().size() > 0 {
        read_block(leaf, 0, store, &mut cell);
    }
    cell[0]
}

/// Puts the cells of a leaf at places of its row-major order, from `first` on, counted from 0, into a slice, as many as
/// it has. Each is fetched once where the leaf is stored. It takes no memory.
pub fn read_block(leaf: &Leaf, first: u64, store: &mut Store, into: &mut [Cell])
    requires lawful { IsLawfulLeaf store.old leaf.now }
    requires places { first + length into.old ≤ size_of (leaf_shape leaf.now) }
    ensures cells { into.new ≡ cells_from store.old leaf.now first (length into.old) }
    ensures counted { AreRead store.old store.new leaf.now (length into.old) }
    ensures lawful { All (IsCell (leaf_kind leaf.now)) into.new }
    ensures store { IsStore store.new }
{
    // It tells the proof that the counts are numbers of a machine.
    let _counts = store.counts();
    let mut walk = RowWalk::new(leaf.desc(), first);
    let mut done = 0;
    while done < into.len() {
        let row = walk.next_row((into.len() - done) as u64);
        let next = done + row.count as usize;
        read_row(leaf, row, store, &mut into[done..next]);
        done = next;
    }
}

// Puts the cells of a leaf that a row of its descriptor's numbers leads to into a slice of that length.
fn read_row(leaf: &Leaf, row: Row, store: &mut Store, into: &mut [Cell])
    requires lawful { CanRead store.old leaf.now row.from row.step row.count }
    requires length { length into.old ≡ row.count }
    ensures cells { into.new ≡ row_cells store.old leaf.now row.from row.step row.count }
    ensures counted { AreRead store.old store.new leaf.now row.count }
    ensures lawful { All (IsCell (leaf_kind leaf.now))
        (row_cells store.old leaf.now row.from row.step row.count) }
    ensures store { IsStore store.new }
{
    let _counts = store.counts();
    match leaf {
        Leaf::Stored { owner, .. } => store.fetch_into(*owner, row.from, row.step, into),
        Leaf::Gen { .. } => fill_along(row.from, row.step, into),
    }
}

// Fills a slice with the numbers `from`, `from + step` and so on.
fn fill_along(from: Cell, step: Cell, into: &mut [Cell])
    requires { (j : ℕ) → j < length into.old → IsNumber (from +ℤ (step *ℤ pos j)) }
    ensures { into.new ≡ numbers_along from step (length into.old) }
{
    let mut number = from;
    for slot in into.iter_mut() {
        *slot = number;
        number = next_number(number, step);
    }
}

// The number a step on, as 128 bits hold it.
fn next_number(number: Cell, step: Cell) -> Cell
    ensures { result ≡ int_wrap w128 (number +ℤ step) }
{
    number.wrapping_add(step)
}
