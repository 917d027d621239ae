//! Columns of elements that are pending for a block of places.

ghost use Rattle.std.specs.Prelude.{◌≡◌, ℕ, ◌+◌, ◌≤◌, ◌<◌, [], ◌∷◌, length, IfOk, OnOk, OnErr, vec_capacity};
ghost use Rattle.apl_base.specs.declared.faults.Place.{Place};
ghost use Rattle.apl_base.specs.Array.{size_of};
ghost use Rattle.array_store.specs.Stores.{StoreView, IsStore};
ghost use Rattle.drag_along.specs.declared.nodes.Node.TheVariants.{Operand, One, Two};
ghost use Rattle.drag_along.specs.Nodes.{leaf_shape};
ghost use Rattle.drag_along.specs.Lawful.{IsLawfulLeaf};
ghost use Rattle.e_machine.specs.Forced.{AreRead};
ghost use Rattle.apl_base.specs.Scalar.{scalar1, scalar2};
ghost use Rattle.scalar_table.specs.Columns.{element_in};
ghost use Rattle.e_machine.specs.Columns.{AreColumns, AreCellsAt, IsColumnAt};
ghost use Rattle.e_machine.specs.Runs.{Passes, IsStep};

use crate::kinds::Kinds;
use crate::reads::read_places;
use apl_base::{Cell, Dya, Kind, Mon, NoMemory};
use array_store::Store;
use drag_along::Leaf;
use scalar_table::{apply1_column, apply2_column};
use std::alloc::Global;

/// Columns of elements that are pending for a block of places: the cells of one after those of the other, the newest
/// last, and the kind of each.
#[derive(Drop)]
pub struct Columns {
    pub cells: Vec<Cell>,
    pub kinds: Kinds,
}

impl Columns {
    /// No column, and room for so many cells.
    pub fn new(alloc: Global, room: usize) -> Result<Columns, NoMemory>
        ensures cells { IfOk result (λ columns. columns.cells.items ≡ []) }
        ensures kinds { IfOk result (λ columns. columns.kinds ≡ []) }
        ensures room { IfOk result (λ columns. room ≤ vec_capacity columns.cells) }
    {
        Ok(Columns {
            cells: Vec::with_capacity(alloc, room)?,
            kinds: Kinds::new(alloc),
        })
    }

    /// Lets all columns go, but not the room that they had.
    pub fn clear(&mut self)
        ensures cells { self.new.cells.items ≡ [] }
        ensures kinds { self.new.kinds ≡ [] }
    {
        self.cells.clear();
        self.kinds.clear();
    }

    /// Puts a column in front: the elements of a leaf at `count` places of its row-major order, from `first` on.
    pub fn read(
        &mut self,
        leaf: &Leaf,
        first: u64,
        count: usize,
        store: &mut Store,
    ) -> Result<(), NoMemory>
        requires lawful { IsLawfulLeaf store.old leaf.now }
        requires places { first + count ≤ size_of (leaf_shape leaf.now) }
        requires columns { AreColumns count self.old }
        ensures passes { OnOk result
            (Passes store.old first count (Operand leaf.now) self.old self.new) }
        ensures counted { OnOk result (AreRead store.old store.new leaf.now count) }
        ensures unchanged { OnErr result (store.new ≡ store.old) }
        ensures store { IsStore store.new }
    {
        // It tells the proof that the store is one.
        let _counts = store.counts();
        self.cells.reserve(count)?;
        self.kinds.push(leaf.kind())?;
        read_places(leaf, first, count as u64, store, &mut self.cells);
        Ok(())
    }

    /// Puts the values of `f B` in the place of the newest column, and answers whether there is one at each place.
    pub fn apply_one(&mut self, f: Mon, count: usize) -> Result<bool, NoMemory>
        requires columns { AreColumns count self.old }
        requires some { 1 ≤ length self.old.kinds }
        ensures { IfOk result (λ passes. (store : StoreView) (first : ℕ) (place : Place)
            → IsStep store first count (One f place) self.old self.new passes) }
    {
        let kind = self.kinds.pop();
        let start = self.cells.len() - count;
        let missing = one_in_place(f, kind, start, count, &mut self.cells);
        self.kinds.push(Kind::Num)?;
        Ok(missing.is_none())
    }

    /// Puts the values of `A f B` in the place of the two newest columns, of which A is the newest, and answers
    /// whether there is one at each place.
    pub fn apply_two(&mut self, f: Dya, count: usize) -> Result<bool, NoMemory>
        requires columns { AreColumns count self.old }
        requires some { 2 ≤ length self.old.kinds }
        ensures { IfOk result (λ passes. (store : StoreView) (first : ℕ) (place : Place)
            → IsStep store first count (Two f place) self.old self.new passes) }
    {
        let left = self.kinds.pop();
        let right = self.kinds.pop();
        let end = self.cells.len() - count;
        let missing = two_in_place(f, left, right, end - count, count, &mut self.cells);
        self.cells.truncate(end);
        self.kinds.push(Kind::Num)?;
        Ok(missing.is_none())
    }
}

// The values of `f B` in the place of the `count` cells from `start` on, the last ones, or a place that has none.
fn one_in_place(f: Mon, kind: Kind, start: usize, count: usize, cells: &mut [Cell]) -> Option<usize>
    requires last { start + count ≡ length cells.old }
    requires lawful { AreCellsAt kind cells.old start count }
    ensures values { IsColumnAt (λ q. scalar1 f (element_in kind cells.old (start + q)))
        cells.old cells.new start count result }
    ensures count { length cells.new ≡ length cells.old }
{
    let (_, column) = cells.split_at_mut(start);
    apply1_column(f, kind, column)
}

// The values of `A f B` in the place of B: the `count` cells from `start` on, behind which are as many of A, the last
// ones. Or a place that has none.
fn two_in_place(
    f: Dya,
    left_kind: Kind,
    right_kind: Kind,
    start: usize,
    count: usize,
    cells: &mut [Cell],
) -> Option<usize>
    requires last { start + count + count ≡ length cells.old }
    requires left { AreCellsAt left_kind cells.old (start + count) count }
    requires right { AreCellsAt right_kind cells.old start count }
    ensures values { IsColumnAt
        (λ q. scalar2 f (element_in left_kind cells.old (start + count + q))
        (element_in right_kind cells.old (start + q)))
        cells.old cells.new start count result }
    ensures count { length cells.new ≡ length cells.old }
{
    let (_, columns) = cells.split_at_mut(start);
    let (right, left) = columns.split_at_mut(count);
    apply2_column(f, left_kind, left, right_kind, right)
}
