//! The store: arrays of cells under numbered owners.

ghost use Rattle.std.specs.Prelude.{◌≡◌, ◌≢◌, ℕ, ◌+◌, ◌-◌, ◌++◌, ◌<◌, ◌≤◌, ◌↔◌, [], length, All, IfOk, OnOk, OnErr, IsOkUnless, IsErrOf, vec_len, vec_capacity};
ghost use Rattle.apl_base.specs.Number.{IsCell};
ghost use Rattle.apl_base.specs.Interval.{InInterval};
ghost use Rattle.array_store.specs.Stores.{IsOwner, IsStore, Makes, owner_of, HasRoom, holders_of, cells_of, kind_of, interval_of, cell_of, empty_store, new_owner, with_holders, with_cell, without_owner};
ghost use Rattle.array_store.specs.Places.{PlacesWithin, cells_along};
ghost use Rattle.array_store.specs.Came.{Renews};
ghost use Rattle.array_store.specs.Counting.{OnlyFetched, OnlyComputed, after_fetches, after_applications};
ghost use Rattle.array_store.specs.Follows.{Follows, none, one_of};

use crate::hulls::{least_to_greatest, widened};
use crate::ids::{BeginFault, Counts, OwnerId};
use crate::places::copy_along;
use apl_base::{Cell, Interval, Kind, NoMemory};
use slab::Slab;
use std::alloc::Global;
use std::marker::Model;

// Cells, and what is kept beside them.
#[derive(Drop)]
struct Owner {
    cells: Vec<Cell>,
    kind: Kind,
    holders: u128,
    interval: Interval,
}

impl Model for Owner {
    ghost use Rattle.array_store.specs.Stores.{OwnerView};

    ghost Value = { OwnerView };

    ghost view = { λ o. record {
      cells = o.cells.items;
      kind = o.kind;
      holders = o.holders;
      interval = o.interval;
    } };
}

/// Owners of cells, each under a number of its own. All their cells together are never more than the limit.
/// The cells are private: to read one is to count it.
#[derive(Drop)]
pub struct Store {
    alloc: Global,
    owners: Slab<Owner>,
    live: u64,
    limit: u64,
    counts: Counts,
}

impl Model for Store {
    ghost use Rattle.array_store.specs.Stores.{StoreView, IsStore};

    ghost Value = { StoreView };

    ghost view = { λ s. record {
      owners = s.owners.slots;
      live = s.live;
      limit = s.limit;
      counts = s.counts;
    } };

    ghost invariant = { λ s. IsStore (record {
      owners = s.owners.slots;
      live = s.live;
      limit = s.limit;
      counts = s.counts;
    }) };
}

impl Store {
    /// An empty store for at most `limit` cells. It takes no memory.
    pub fn new(alloc: Global, limit: u64) -> Store
        ensures { result ≡ empty_store limit }
    {
        Store {
            alloc,
            owners: Slab::new(alloc),
            live: 0,
            limit,
            counts: Counts {
                fetched: 0,
                made: 0,
                applied: 0,
            },
        }
    }

    /// An empty vector with room for `asked` cells, where the store can hold so many more.
    pub fn begin(&self, asked: u64) -> Result<Vec<Cell>, BeginFault>
        ensures refused { IsErrOf result (BeginFault.WsFull self.now.live asked)
            ↔ (self.now.limit < self.now.live + asked) }
        ensures within { OnOk result (HasRoom self.now asked) }
        ensures other { HasRoom self.now asked → IsOkUnless result BeginFault.NoMemory }
        ensures empty { IfOk result (λ cells. cells.items ≡ []) }
        ensures room { IfOk result (λ cells. asked ≤ vec_capacity cells) }
        ensures store { IsStore self.now }
    {
        if asked > self.limit - self.live {
            return Err(BeginFault::WsFull {
                live: self.live,
                asked,
            });
        }
        Vec::with_capacity(self.alloc, asked as usize).map_err(|_| BeginFault::NoMemory)
    }

    /// Takes these cells in as a new owner with one holder. After want of memory the store is unchanged.
    pub fn make(&mut self, cells: Vec<Cell>, kind: Kind) -> Result<OwnerId, NoMemory>
        requires room { HasRoom self.old (vec_len cells) }
        requires lawful { All (IsCell kind) cells.items }
        ensures made { IfOk result (λ key.
            Makes self.old self.new key (new_owner cells.items kind)) }
        ensures follows { IfOk result (λ key. Follows self.old self.new none (one_of key)) }
        ensures unchanged { OnErr result (self.new ≡ self.old) }
        ensures store { IsStore self.new }
    {
        let count = cells.len() as u64;
        let interval = least_to_greatest(cells.as_slice());
        let owner = Owner {
            cells,
            kind,
            holders: 1,
            interval,
        };
        let Ok(key) = self.owners.insert(owner) else {
            return Err(NoMemory);
        };
        self.live += count;
        self.counts.made = self.counts.made.saturating_add(count);
        Ok(OwnerId { key })
    }

    /// The cell at a place of an owner. It counts one fetch.
    pub fn fetch(&mut self, owner: OwnerId, place: u64) -> Cell
        // So the owner is live: no other has a cell.
        requires { place < length (cells_of self.old owner) }
        ensures value { result ≡ cell_of self.old owner place }
        ensures counted { self.new ≡ after_fetches self.old 1 }
        ensures only { OnlyFetched self.old self.new 1 }
        ensures lawful { IsCell (kind_of self.old owner) result }
        ensures within { InInterval (interval_of self.old owner) result }
        ensures store { IsStore self.new }
    {
        self.counts.fetched = self.counts.fetched.saturating_add(1);
        let read = &self.owners[owner.key];
        read.cells[place as usize]
    }

    /// Appends the cells at `count` places of an owner, `from`, `from + step` and so on, to a vector with room for
    /// them. It counts a fetch for each, and takes no memory.
    pub fn fetch_run(
        &mut self,
        owner: OwnerId,
        from: Cell,
        step: Cell,
        count: u64,
        into: &mut Vec<Cell>,
    )
        requires live { 0 < holders_of self.old owner }
        requires places { PlacesWithin (length (cells_of self.old owner)) from step count }
        requires room { vec_len into.old + count ≤ vec_capacity into.old }
        ensures cells { into.new.items
            ≡ into.old.items ++ cells_along (cells_of self.old owner) from step count }
        ensures capacity { vec_capacity into.old ≤ vec_capacity into.new }
        ensures counted { self.new ≡ after_fetches self.old count }
        ensures only { OnlyFetched self.old self.new count }
        ensures lawful { All (IsCell (kind_of self.old owner))
            (cells_along (cells_of self.old owner) from step count) }
        ensures within { All (InInterval (interval_of self.old owner))
            (cells_along (cells_of self.old owner) from step count) }
        ensures store { IsStore self.new }
    {
        let start = into.len();
        let Ok(()) = into.resize(start + count as usize, 0) else {
            unreachable!()
        };
        self.fetch_into(owner, from, step, &mut into[start..]);
    }

    /// Puts the cells at places of an owner, `from`, `from + step` and so on, into a slice, as many as it has. It
    /// counts a fetch for each.
    pub fn fetch_into(&mut self, owner: OwnerId, from: Cell, step: Cell, into: &mut [Cell])
        requires live { 0 < holders_of self.old owner }
        requires places { PlacesWithin (length (cells_of self.old owner)) from step
            (length into.old) }
        ensures cells { into.new
            ≡ cells_along (cells_of self.old owner) from step (length into.old) }
        ensures counted { self.new ≡ after_fetches self.old (length into.old) }
        ensures only { OnlyFetched self.old self.new (length into.old) }
        ensures lawful { All (IsCell (kind_of self.old owner)) into.new }
        ensures within { All (InInterval (interval_of self.old owner)) into.new }
        ensures store { IsStore self.new }
    {
        self.counts.fetched = self.counts.fetched.saturating_add(into.len() as u64);
        let read = &self.owners[owner.key];
        copy_along(read.cells.as_slice(), from, step, into);
    }

    /// Writes one cell in place. The owner's interval becomes the hull of what it was and the cell.
    pub fn write(&mut self, owner: OwnerId, place: u64, cell: Cell)
        requires alone { holders_of self.old owner ≡ 1 }
        requires in_range { place < length (cells_of self.old owner) }
        requires lawful { IsCell (kind_of self.old owner) cell }
        ensures written { self.new ≡ with_cell self.old owner place cell }
        ensures store { IsStore self.new }
    {
        let written = &mut self.owners[owner.key];
        written.cells[place as usize] = cell;
        written.interval = widened(written.interval, cell);
    }

    /// One holder more.
    pub fn hold(&mut self, owner: OwnerId)
        requires live { 0 < holders_of self.old owner }
        requires room { holders_of self.old owner < u128.MAX }
        ensures held { self.new ≡ with_holders self.old owner (holders_of self.old owner + 1) }
        ensures follows { Follows self.old self.new none (one_of owner) }
        ensures store { IsStore self.new }
    {
        let held = &mut self.owners[owner.key];
        held.holders += 1;
    }

    /// One holder less. With the last one the owner is freed.
    pub fn release(&mut self, owner: OwnerId)
        requires { 0 < holders_of self.old owner }
        ensures kept { 1 < holders_of self.old owner
            → self.new ≡ with_holders self.old owner (holders_of self.old owner - 1) }
        ensures freed { holders_of self.old owner ≡ 1 → self.new ≡ without_owner self.old owner }
        ensures follows { Follows self.old self.new (one_of owner) none }
        ensures renews { Renews self.old self.new [] }
        ensures counts { self.new.counts ≡ self.old.counts }
        ensures store { IsStore self.new }
    {
        if self.holders(owner) == 1 {
            self.free(owner);
        } else {
            let kept = &mut self.owners[owner.key];
            kept.holders -= 1;
        }
    }

    // Lets an owner and its cells go.
    fn free(&mut self, owner: OwnerId)
        requires { 0 < holders_of self.old owner }
        ensures { self.new ≡ without_owner self.old owner }
    {
        let freed = self.owners.remove(owner.key);
        self.live -= freed.cells.len() as u64;
    }

    /// How many hold an owner.
    pub fn holders(&self, owner: OwnerId) -> u128
        requires { 0 < holders_of self.now owner }
        ensures { result ≡ holders_of self.now owner }
    {
        let kept = &self.owners[owner.key];
        kept.holders
    }

    /// How many cells an owner has.
    pub fn cells(&self, owner: OwnerId) -> u64
        requires { 0 < holders_of self.now owner }
        ensures { result ≡ length (cells_of self.now owner) }
    {
        let kept = &self.owners[owner.key];
        kept.cells.len() as u64
    }

    /// What an owner's cells are.
    pub fn kind(&self, owner: OwnerId) -> Kind
        requires { 0 < holders_of self.now owner }
        ensures value { result ≡ kind_of self.now owner }
        ensures lawful { IsOwner (owner_of self.now owner) }
    {
        let kept = &self.owners[owner.key];
        kept.kind
    }

    /// The interval that is kept for an owner. Each of its cells lies in it.
    pub fn interval(&self, owner: OwnerId) -> Interval
        requires { 0 < holders_of self.now owner }
        ensures value { result ≡ interval_of self.now owner }
        ensures lawful { IsOwner (owner_of self.now owner) }
    {
        let kept = &self.owners[owner.key];
        kept.interval
    }

    /// The number of cells of all owners.
    pub fn live(&self) -> u64
        ensures value { result ≡ self.now.live }
        ensures store { IsStore self.now }
    {
        self.live
    }

    /// The greatest number of cells that all owners may have.
    pub fn limit(&self) -> u64
        ensures value { result ≡ self.now.limit }
        ensures store { IsStore self.now }
    {
        self.limit
    }

    /// The counts so far.
    pub fn counts(&self) -> Counts
        ensures value { result ≡ self.now.counts }
        ensures store { IsStore self.now }
    {
        self.counts
    }

    /// Counts one scalar function applied to an element.
    pub fn count_applied(&mut self)
        ensures counted { self.new ≡ after_applications self.old 1 }
        ensures only { OnlyComputed self.old self.new 1 0 }
        ensures store { IsStore self.new }
    {
        self.counts.applied = self.counts.applied.saturating_add(1);
    }

    /// Counts `n` scalar functions applied to elements.
    pub fn count_applied_many(&mut self, n: u64)
        ensures counted { self.new ≡ after_applications self.old n }
        ensures only { OnlyComputed self.old self.new n 0 }
        ensures store { IsStore self.new }
    {
        self.counts.applied = self.counts.applied.saturating_add(n);
    }
}
