//! Uses of the store, proved from its public clauses alone.
#![tactic(auto)]

ghost use Rattle.std.specs.Prelude.{◌≡◌, ℕ, ◌+◌, ◌<◌, ◌≤◌, length, slice_index_or, pos, All, IfOk, OnErr, vec_len};
ghost use Rattle.apl_base.specs.Number.{IsNumber};
ghost use Rattle.array_store.specs.Stores.{owner_at, counted};

use apl_base::{Cell, Kind, NoMemory};
use array_store::Store;

mod came;
#[cfg(test)]
mod tests;

pub use came::{
    held_and_let_go, live_is_what_came, made_held_and_let_go, taken_in_and_read, written_beside,
};

/// Takes cells in, holds them twice and once again, writes one through the one holder, reads it back and lets
/// go. The store ends as it began, but for what it counted.
pub fn written_and_let_go(
    store: &mut Store,
    cells: Vec<Cell>,
    place: u64,
    cell: Cell,
) -> Result<Cell, NoMemory>
    requires room { store.old.live + vec_len cells ≤ store.old.limit }
    requires lawful { All IsNumber cells.items }
    requires in_range { place < vec_len cells }
    requires number { IsNumber cell }
    ensures read { IfOk result (λ c. c ≡ cell) }
    ensures owners { (key : ℕ) → owner_at store.new key ≡ owner_at store.old key }
    ensures live { store.new.live ≡ store.old.live }
    ensures limit { store.new.limit ≡ store.old.limit }
    ensures fetched { IfOk result (λ _.
        store.new.counts.fetched ≡ counted store.old.counts.fetched 1) }
    ensures made { IfOk result (λ _.
        store.new.counts.made ≡ counted store.old.counts.made (vec_len cells)) }
    ensures applied { store.new.counts.applied ≡ store.old.counts.applied }
    ensures unchanged { OnErr result (store.new ≡ store.old) }
{
    let owner = store.make(cells, Kind::Num)?;
    store.hold(owner);
    store.release(owner);
    store.write(owner, place, cell);
    let read = store.fetch(owner, place);
    store.release(owner);
    Ok(read)
}

/// Two owners side by side: the first is held twice while a cell of the other is written through its one holder.
/// A read of the first gives its own cell, and one of the other the cell written. Both go with their last holder.
pub fn side_by_side(
    store: &mut Store,
    left: Vec<Cell>,
    right: Vec<Cell>,
    place: u64,
    cell: Cell,
) -> Result<(Cell, Cell), NoMemory>
    requires room { store.old.live + vec_len left + vec_len right ≤ store.old.limit }
    requires left_lawful { All IsNumber left.items }
    requires right_lawful { All IsNumber right.items }
    requires in_left { place < vec_len left }
    requires in_right { place < vec_len right }
    requires number { IsNumber cell }
    ensures left { IfOk result (λ read. read.0 ≡ slice_index_or left.items place (pos 0)) }
    ensures right { IfOk result (λ read. read.1 ≡ cell) }
    ensures owners { (key : ℕ) → owner_at store.new key ≡ owner_at store.old key }
    ensures live { store.new.live ≡ store.old.live }
{
    let first = store.make(left, Kind::Num)?;
    let Ok(second) = store.make(right, Kind::Num) else {
        store.release(first);
        return Err(NoMemory);
    };
    store.hold(first);
    store.write(second, place, cell);
    store.release(first);
    let kept = store.fetch(first, place);
    let written = store.fetch(second, place);
    store.release(first);
    store.release(second);
    Ok((kept, written))
}
