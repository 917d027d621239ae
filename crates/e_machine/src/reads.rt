//! Elements of leaves read at an index, and at a run of places.

ghost use Rattle.std.specs.Prelude.{◌≡◌, ℕ, [], ◌+◌, ◌<◌, ◌≤◌, pos, ◌+ℤ◌, ◌*ℤ◌, ◌++◌, length, map, All, vec_len, vec_capacity};
ghost use Rattle.std.specs.Int.{int_wrap};
ghost use mir.Syntax.{w128};
ghost use Rattle.apl_base.specs.Array.{IsIndex, size_of};
ghost use Rattle.apl_base.specs.Selection.{upward};
ghost use Rattle.apl_base.specs.Number.{IsCell, IsNumber};
ghost use Rattle.array_store.specs.Stores.{IsStore, holders_of, cells_of, kind_of};
ghost use Rattle.array_store.specs.Counting.{OnlyFetched};
ghost use Rattle.drag_along.specs.Nodes.{leaf_kind, leaf_shape};
ghost use Rattle.drag_along.specs.Meaning.{leaf_element};
ghost use Rattle.drag_along.specs.Lawful.{IsLawfulLeaf};
ghost use Rattle.e_machine.specs.Rows.{numbers_along, row_cells, CanRead};
ghost use Rattle.e_machine.specs.Forced.{IsRead, AreRead, cells_from};

use apl_base::{Cell, Elem};
use array_desc::{Row, RowWalk};
use array_store::Store;
use drag_along::Leaf;

/// A leaf's element at an index. One cell is fetched for a stored leaf, none for another. It takes no memory.
pub fn read_at(leaf: &Leaf, index: &[u64], store: &mut Store) -> Elem
    requires lawful { IsLawfulLeaf store.old leaf.now }
    requires index { IsIndex (leaf_shape leaf.now) index.now }
    ensures element { result ≡ leaf_element store.old leaf.now index.now }
    ensures cell { IsCell result.kind result.cell }
    ensures counted { IsRead store.old store.new leaf.now }
    ensures store { IsStore store.new }
{
    // No owner has more cells than the limit, so each place fits.
    let _limit = store.limit();
    match leaf {
        Leaf::Stored { owner, desc, kind } => {
            let place = desc.number_at(index) as u64;
            Elem {
                kind: *kind,
                cell: store.fetch(*owner, place),
            }
        }
        Leaf::Gen { desc, kind } => Elem {
            kind: *kind,
            cell: desc.number_at(index),
        },
    }
}

/// Appends the cells of a leaf at `count` places of its row-major order, from `first` on, counted from 0. So many cells
/// are fetched for a stored leaf, none for another. It takes no memory.
pub fn read_places(leaf: &Leaf, first: u64, count: u64, store: &mut Store, into: &mut Vec<Cell>)
    requires lawful { IsLawfulLeaf store.old leaf.now }
    requires places { first + count ≤ size_of (leaf_shape leaf.now) }
    requires room { vec_len into.old + count ≤ vec_capacity into.old }
    ensures cells { into.new.items ≡ into.old.items ++ cells_from store.old leaf.now first count }
    ensures capacity { vec_capacity into.old ≤ vec_capacity into.new }
    ensures counted { AreRead store.old store.new leaf.now count }
    ensures lawful { All (IsCell (leaf_kind leaf.now)) (cells_from store.old leaf.now first count) }
    ensures store { IsStore store.new }
{
    // It tells the proof that the counts are numbers of a machine.
    let _counts = store.counts();
    if count == 1 && leaf.desc().shape.rank() == 0 {
        read_single(leaf, store, into);
        return;
    }
    let mut walk = RowWalk::new(leaf.desc(), first);
    let mut done = 0;
    while done < count {
        let row = walk.next_row(count - done);
        read_row(leaf, row, store, into);
        done += row.count;
    }
}

// Appends the only cell of a leaf without axes.
fn read_single(leaf: &Leaf, store: &mut Store, into: &mut Vec<Cell>)
    requires lawful { IsLawfulLeaf store.old leaf.now }
    requires single { leaf_shape leaf.now ≡ [] }
    requires room { vec_len into.old + 1 ≤ vec_capacity into.old }
    ensures cells { (first : ℕ)
        → into.new.items ≡ into.old.items ++ cells_from store.old leaf.now first 1 }
    ensures capacity { vec_capacity into.old ≤ vec_capacity into.new }
    ensures counted { AreRead store.old store.new leaf.now 1 }
    ensures lawful { (first : ℕ)
        → All (IsCell (leaf_kind leaf.now)) (cells_from store.old leaf.now first 1) }
    ensures store { IsStore store.new }
{
    let read = read_at(leaf, &[], store);
    into.push_reserved(read.cell);
}

// Appends the cells of a leaf that a row of its descriptor's numbers leads to.
fn read_row(leaf: &Leaf, row: Row, store: &mut Store, into: &mut Vec<Cell>)
    requires lawful { CanRead store.old leaf.now row.from row.step row.count }
    requires room { vec_len into.old + row.count ≤ vec_capacity into.old }
    ensures cells { into.new.items
        ≡ into.old.items ++ row_cells store.old leaf.now row.from row.step row.count }
    ensures capacity { vec_capacity into.old ≤ vec_capacity into.new }
    ensures counted { AreRead store.old store.new leaf.now row.count }
    ensures lawful { All (IsCell (leaf_kind leaf.now))
        (row_cells store.old leaf.now row.from row.step row.count) }
    ensures store { IsStore store.new }
{
    let _counts = store.counts();
    match leaf {
        Leaf::Stored { owner, .. } => store.fetch_run(*owner, row.from, row.step, row.count, into),
        Leaf::Gen { .. } => push_numbers(row, into),
    }
}

// Appends the numbers of a row.
fn push_numbers(row: Row, into: &mut Vec<Cell>)
    requires numbers { (j : ℕ) → j < row.count → IsNumber (row.from +ℤ (row.step *ℤ pos j)) }
    requires room { vec_len into.old + row.count ≤ vec_capacity into.old }
    ensures cells { into.new.items ≡ into.old.items ++ numbers_along row.from row.step row.count }
    ensures capacity { vec_capacity into.old ≤ vec_capacity into.new }
{
    let start = into.len();
    let Ok(()) = into.resize(start + row.count as usize, 0) else {
        unreachable!()
    };
    fill_along(row.from, row.step, &mut into[start..]);
}

// Fills a slice with the numbers `from`, `from + step` and so on.
fn fill_along(from: Cell, step: Cell, into: &mut [Cell])
    requires { (j : ℕ) → j < length into.old → IsNumber (from +ℤ (step *ℤ pos j)) }
    ensures { into.new ≡ numbers_along from step (length into.old) }
{
    let mut number = from;
    for slot in into.iter_mut() {
        *slot = number;
        number = next_number(number, step);
    }
}

// The number a step on, as 128 bits hold it.
fn next_number(number: Cell, step: Cell) -> Cell
    ensures { result ≡ int_wrap w128 (number +ℤ step) }
{
    number.wrapping_add(step)
}
