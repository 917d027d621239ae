//! What came and what it cost, through the calls of the store.

ghost use Rattle.std.specs.Prelude.{◌≡◌, ◌≢◌, ◌+◌, ◌<◌, ◌≤◌, [], ◌∷◌, ◌++◌, length, All, IfOk, OnOk, OnErr, vec_len, vec_capacity};
ghost use Rattle.apl_base.specs.Number.{IsNumber};
ghost use Rattle.array_store.specs.Stores.{HasRoom, cell_of, cells_of, kind_of, holders_of};
ghost use Rattle.array_store.specs.Came.{Renews};
ghost use Rattle.array_store.specs.Counting.{Costs};
ghost use Rattle.apl_base.specs.Number.{IsCell};
ghost use Rattle.store_use.specs.Came.{LiveIsWhatCame};

use apl_base::{Cell, Kind, NoMemory};
use array_store::{OwnerId, Store};

/// Takes cells in as a new owner, reads them all behind those of a vector, and counts a function for each.
pub fn taken_in_and_read(
    store: &mut Store,
    cells: Vec<Cell>,
    into: &mut Vec<Cell>,
) -> Result<OwnerId, NoMemory>
    requires room { HasRoom store.old (vec_len cells) }
    requires lawful { All IsNumber cells.items }
    requires space { vec_len into.old + vec_len cells ≤ vec_capacity into.old }
    ensures read { OnOk result (into.new.items ≡ into.old.items ++ cells.items) }
    ensures came { IfOk result (λ owner.
        Renews store.old store.new (record { key = owner; cells = vec_len cells } ∷ [])) }
    ensures held { IfOk result (λ owner. holders_of store.new owner ≡ 1) }
    ensures costs { OnOk result
        (Costs store.old store.new (vec_len cells) (vec_len cells) (vec_len cells)) }
    ensures unchanged { OnErr result (store.new ≡ store.old) }
{
    // That the counts are numbers of 64 bits.
    let _counts = store.counts();
    let count = cells.len() as u64;
    let owner = store.make(cells, Kind::Num)?;
    store.fetch_run(owner, 0, 1, count, into);
    store.count_applied_many(count);
    Ok(owner)
}

/// Writes one cell, and reads another of the same owner.
pub fn written_beside(store: &mut Store, owner: OwnerId, place: u64, cell: Cell, other: u64) -> Cell
    requires alone { holders_of store.old owner ≡ 1 }
    requires in_range { place < length (cells_of store.old owner) }
    requires other { other < length (cells_of store.old owner) }
    requires apart { other ≢ place }
    requires lawful { IsCell (kind_of store.old owner) cell }
    ensures kept { result ≡ cell_of store.old owner other }
    ensures came { Renews store.old store.new
        (record { key = owner; cells = length (cells_of store.old owner) } ∷ []) }
    ensures costs { Costs store.old store.new 1 0 0 }
{
    store.write(owner, place, cell);
    store.fetch(owner, other)
}

/// Holds an owner once more, and lets go. Nothing came, and nothing was counted.
pub fn held_and_let_go(store: &mut Store, owner: OwnerId)
    requires live { 0 < holders_of store.old owner }
    requires room { holders_of store.old owner < u128.MAX }
    ensures came { Renews store.old store.new [] }
    ensures costs { Costs store.old store.new 0 0 0 }
{
    store.hold(owner);
    store.release(owner);
}

/// Takes cells in as a new owner, holds it once more, and lets go twice. No owner came, and nothing but its cells was
/// counted. After want of memory the store is as it was.
pub fn made_held_and_let_go(store: &mut Store, cells: Vec<Cell>) -> Result<(), NoMemory>
    requires room { HasRoom store.old (vec_len cells) }
    requires lawful { All IsNumber cells.items }
    ensures came { Renews store.old store.new [] }
    ensures costs { Costs store.old store.new 0 (vec_len cells) 0 }
    ensures unchanged { OnErr result (store.new ≡ store.old) }
{
    // That the counts are numbers of 64 bits.
    let _counts = store.counts();
    let owner = store.make(cells, Kind::Num)?;
    store.hold(owner);
    store.release(owner);
    store.release(owner);
    Ok(())
}

/// In a store that was empty no more cells are live than those of the owners that came.
pub fn live_is_what_came()
    ensures { LiveIsWhatCame }
{}
