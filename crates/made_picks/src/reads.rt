//! Cells of a leaf at numbers of its descriptor.
ghost use Rattle.std.specs.Prelude.{◌≡◌, ℕ, ◌+◌, ◌<◌, ◌≤◌, pos, ◌+ℤ◌, ◌*ℤ◌, ◌++◌, ◌∷◌, [], length, map, replicate, vec_len, vec_capacity};
ghost use Rattle.std.specs.Int.{int_wrap};
ghost use mir.Syntax.{w128};
ghost use Rattle.apl_base.specs.Number.{IsNumber};
ghost use Rattle.apl_base.specs.Selection.{upward};
ghost use Rattle.array_store.specs.Stores.{IsStore};
ghost use Rattle.array_store.specs.Counting.{OnlyFetched};
ghost use Rattle.e_machine.specs.Rows.{numbers_along};
ghost use Rattle.made_picks.specs.Picks.{cell_by, IsReadable};

use apl_base::Cell;
use array_store::Store;
use drag_along::Leaf;

/// The cell at a number. It is fetched where the leaf is stored.
pub(crate) fn read_number(leaf: &Leaf, number: Cell, store: &mut Store) -> Cell
    requires { IsReadable store.old leaf.now number }
    ensures value { result ≡ cell_by store.old leaf.now number }
    ensures counted { OnlyFetched store.old store.new 1 }
    ensures store { IsStore store.new }
{
    // No owner has more cells than the limit, so each place fits.
    let _limit = store.limit();
    match leaf {
        Leaf::Stored { owner, .. } => store.fetch(*owner, number as u64),
        Leaf::Gen { .. } => number,
    }
}

/// Appends the cells at `count` numbers that lie `step` apart, the first of them `from`, which have room. Each is fetched
/// where the leaf is stored.
pub(crate) fn read_run(
    leaf: &Leaf,
    from: Cell,
    step: Cell,
    count: u64,
    store: &mut Store,
    into: &mut Vec<Cell>,
)
    requires each { (j : ℕ) → j < count → IsReadable store.old leaf.now (from +ℤ (step *ℤ pos j)) }
    requires room { vec_len into.old + count ≤ vec_capacity into.old }
    ensures cells { into.new.items ≡ into.old.items
        ++ map (λ j. cell_by store.old leaf.now (from +ℤ (step *ℤ pos j))) (upward 0 count) }
    ensures capacity { vec_capacity into.old ≤ vec_capacity into.new }
    ensures counted { OnlyFetched store.old store.new count }
    ensures store { IsStore store.new }
{
    // It tells the proof that the store is one.
    let _counts = store.counts();
    if count == 0 {
        return;
    }
    match leaf {
        Leaf::Stored { owner, .. } => store.fetch_run(*owner, from, step, count, into),
        Leaf::Gen { .. } => push_numbers(from, step, count, into),
    }
}

// Appends numbers that lie a step apart, which have room.
fn push_numbers(from: Cell, step: Cell, count: u64, into: &mut Vec<Cell>)
    requires each { (j : ℕ) → j < count → IsNumber (from +ℤ (step *ℤ pos j)) }
    requires room { vec_len into.old + count ≤ vec_capacity into.old }
    ensures cells { into.new.items ≡ into.old.items
        ++ numbers_along from step count }
    ensures capacity { vec_capacity into.old ≤ vec_capacity into.new }
{
    let start = into.len();
    let Ok(()) = into.resize(start + count as usize, 0) else {
        unreachable!()
    };
    fill_along(from, step, &mut into[start..]);
}

// Fills a slice with the numbers `from`, `from + step` and so on.
fn fill_along(from: Cell, step: Cell, into: &mut [Cell])
    requires { (j : ℕ) → j < length into.old → IsNumber (from +ℤ (step *ℤ pos j)) }
    ensures { into.new ≡ numbers_along from step (length into.old) }
{
    let mut number = from;
    for slot in into.iter_mut() {
        *slot = number;
        number = next_number(number, step);
    }
}

// The number a step on, as 128 bits hold it.
fn next_number(number: Cell, step: Cell) -> Cell
    ensures { result ≡ int_wrap w128 (number +ℤ step) }
{
    number.wrapping_add(step)
}

/// Appends a cell, which has room.
pub(crate) fn push_cell(cell: Cell, into: &mut Vec<Cell>)
    requires { vec_len into.old < vec_capacity into.old }
    ensures cells { into.new.items ≡ into.old.items ++ cell ∷ [] }
    ensures capacity { vec_capacity into.old ≤ vec_capacity into.new }
{
    let Ok(()) = into.push(cell) else {
        unreachable!()
    };
}

/// Appends a cell so many times, which have room.
pub(crate) fn push_blanks(count: u64, blank: Cell, into: &mut Vec<Cell>)
    requires { vec_len into.old + count ≤ vec_capacity into.old }
    ensures cells { into.new.items ≡ into.old.items ++ replicate count blank }
    ensures capacity { vec_capacity into.old ≤ vec_capacity into.new }
{
    let Ok(()) = into.resize(into.len() + count as usize, blank) else {
        unreachable!()
    };
}
