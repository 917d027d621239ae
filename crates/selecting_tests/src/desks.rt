//! Entries over a store, and steps on them by name.

ghost use Rattle.std.specs.Prelude.{◌+◌, ◌≤◌, length, OnOk};
ghost use Rattle.apl_model_laws.specs.Lawful.{IsOrigin};
ghost use Rattle.array_store.specs.Follows.{Holds, both};
ghost use Rattle.drag_along.specs.Lawful.{IsLawfulLeaf};
ghost use Rattle.drag_along.specs.Nodes.{named_by_leaf};
ghost use Rattle.indexing_steps.specs.Operands.{positions_in};
ghost use Rattle.selection_choices.specs.Choices.{SelectsOne, SelectsTwo};
ghost use Rattle.value_stack.specs.Stacks.{named_on, IsLawfulStack};
ghost use Rattle.selecting_tests.specs.Desks.{IsSound};

use apl_base::{Cell, Dya, ErrorKind, Mon, Place, Shape};
use apl_model::{Axis, DyaFn, MonFn};
use array_store::Store;
use drag_along::Leaf;
use indexing_steps::{count_there, subscript};
use leaf_steps::{made_one, outer_product, reduction, take_one};
use made_leaf::read_cells;
use pending_steps::{Halt, push_leaf, scalar_one, scalar_two};
use selecting_steps::select_one;
use std::alloc::Global;
use stored_leaves::{Argument, placed};
use taking_steps::select_two;
use value_stack::Stack;

/// What is done with the newest entries.
#[derive(Clone, Copy, Debug)]
pub enum Step {
    /// An argument comes as the newest entry.
    Put(Argument),
    /// A number comes as the newest entry.
    Number(i64),
    /// A scalar function of the newest.
    One(Mon),
    /// A scalar function of the two newest, of which the left argument is the newest.
    Two(Dya),
    Iota,
    Reverse(Axis),
    Transpose,
    TransposeBy,
    Take,
    Skip,
    /// A reduction along the last axis.
    Reduce(Dya),
    Outer(Dya),
    /// A subscript of the newest by those below it; which positions are there, is said.
    Index(&'static [bool]),
}

/// The shape and the cells of the newest entry.
#[derive(Drop)]
pub struct Newest {
    pub shape: Shape,
    pub cells: Vec<Cell>,
}

/// Entries and the store of the owners that they read.
#[derive(Drop)]
pub struct Desk {
    pub stack: Stack,
    pub store: Store,
}

impl Desk {
    /// No entry, and room for so many cells. It takes no memory.
    pub fn new(alloc: Global, limit: u64) -> Desk
        ensures { IsSound result }
    {
        Desk {
            stack: Stack::new(alloc),
            store: Store::new(alloc, limit),
        }
    }

    /// Does a step at a place. Where an operand is missing it is a VALUE ERROR.
    pub fn does(
        &mut self,
        alloc: Global,
        step: &Step,
        place: Place,
        origin: Cell,
    ) -> Result<(), Halt>
        requires sound { IsSound self.old }
        requires origin { IsOrigin origin }
        ensures { OnOk result (IsSound self.new) }
    {
        let entries = self.stack.len();
        match *step {
            Step::Put(argument) => self.put(alloc, &argument),
            Step::Number(number) => self.put(alloc, &Argument::Same(number, &[])),
            Step::Index(mask) if count_there(mask) < entries => {
                self.index(alloc, mask, origin, place)
            }
            _ if entries > 1 => self.does_two(alloc, step, place, origin),
            _ if entries > 0 => self.does_one(alloc, step, place, origin),
            _ => Err(missing(place)),
        }
    }

    // A step on the two newest entries, or on the newest alone.
    fn does_two(
        &mut self,
        alloc: Global,
        step: &Step,
        place: Place,
        origin: Cell,
    ) -> Result<(), Halt>
        requires sound { IsSound self.old }
        requires origin { IsOrigin origin }
        requires operands { 2 ≤ length self.old.stack }
        ensures { OnOk result (IsSound self.new) }
    {
        match *step {
            Step::Two(f) => self.join(alloc, f, place),
            Step::Outer(f) => self.table(alloc, f, place),
            Step::Take => self.select_two(alloc, DyaFn::Take, origin, place),
            Step::Skip => self.select_two(alloc, DyaFn::Skip, origin, place),
            Step::TransposeBy => self.select_two(alloc, DyaFn::Transpose, origin, place),
            _ => self.does_one(alloc, step, place, origin),
        }
    }

    // A step on the newest entry.
    fn does_one(
        &mut self,
        alloc: Global,
        step: &Step,
        place: Place,
        origin: Cell,
    ) -> Result<(), Halt>
        requires sound { IsSound self.old }
        requires origin { IsOrigin origin }
        requires operand { 1 ≤ length self.old.stack }
        ensures { OnOk result (IsSound self.new) }
    {
        match *step {
            Step::One(f) => self.apply(alloc, f, place),
            Step::Iota => self.count(alloc, origin, place),
            Step::Reverse(axis) => self.select_one(alloc, MonFn::Reverse { axis }, origin, place),
            Step::Transpose => self.select_one(alloc, MonFn::Transpose, origin, place),
            Step::Reduce(f) => self.reduce(alloc, f, origin, place),
            _ => Err(missing(place)),
        }
    }

    // An argument comes as the newest entry. Where it is none memory is wanting.
    fn put(&mut self, alloc: Global, argument: &Argument) -> Result<(), Halt>
        requires { IsSound self.old }
        ensures { OnOk result (IsSound self.new) }
    {
        match placed(alloc, argument, &mut self.store) {
            Ok(leaf) => self.put_leaf(alloc, leaf),
            Err(_) => Err(Halt::NoMemory),
        }
    }

    // A leaf in hand comes as the newest entry.
    fn put_leaf(&mut self, alloc: Global, leaf: Leaf) -> Result<(), Halt>
        requires lawful { IsLawfulLeaf self.old.store leaf }
        requires entries { IsLawfulStack self.old.store self.old.stack }
        requires held { Holds self.old.store
            (both (named_on self.old.stack) (named_by_leaf leaf)) }
        ensures { OnOk result (IsSound self.new) }
    {
        push_leaf(alloc, leaf, &mut self.stack, &self.store)?;
        Ok(())
    }

    // A subscript.
    fn index(
        &mut self,
        alloc: Global,
        mask: &[bool],
        origin: Cell,
        place: Place,
    ) -> Result<(), Halt>
        requires sound { IsSound self.old }
        requires origin { IsOrigin origin }
        requires operands { 1 + positions_in mask.now ≤ length self.old.stack }
        ensures { OnOk result (IsSound self.new) }
    {
        subscript(alloc, mask, place, origin, &mut self.stack, &mut self.store)
    }

    // A scalar function of two.
    fn join(&mut self, alloc: Global, f: Dya, place: Place) -> Result<(), Halt>
        requires sound { IsSound self.old }
        requires operands { 2 ≤ length self.old.stack }
        ensures { OnOk result (IsSound self.new) }
    {
        scalar_two(alloc, f, place, &mut self.stack, &mut self.store)
    }

    // An outer product.
    fn table(&mut self, alloc: Global, f: Dya, place: Place) -> Result<(), Halt>
        requires sound { IsSound self.old }
        requires operands { 2 ≤ length self.old.stack }
        ensures { OnOk result (IsSound self.new) }
    {
        outer_product(alloc, f, place, &mut self.stack, &mut self.store)
    }

    // A selection by counts or axes.
    fn select_two(
        &mut self,
        alloc: Global,
        f: DyaFn,
        origin: Cell,
        place: Place,
    ) -> Result<(), Halt>
        requires sound { IsSound self.old }
        requires selects { SelectsTwo f }
        requires origin { IsOrigin origin }
        requires operands { 2 ≤ length self.old.stack }
        ensures { OnOk result (IsSound self.new) }
    {
        select_two(alloc, f, place, origin, &mut self.stack, &mut self.store)
    }

    // A scalar function of one.
    fn apply(&mut self, alloc: Global, f: Mon, place: Place) -> Result<(), Halt>
        requires sound { IsSound self.old }
        requires operand { 1 ≤ length self.old.stack }
        ensures { OnOk result (IsSound self.new) }
    {
        scalar_one(alloc, f, place, &mut self.stack, &mut self.store)
    }

    // The numbers from the origin up.
    fn count(&mut self, alloc: Global, origin: Cell, place: Place) -> Result<(), Halt>
        requires sound { IsSound self.old }
        requires origin { IsOrigin origin }
        requires operand { 1 ≤ length self.old.stack }
        ensures { OnOk result (IsSound self.new) }
    {
        made_one(
            alloc,
            MonFn::Iota,
            place,
            origin,
            &mut self.stack,
            &mut self.store,
        )
    }

    // A selection without counts.
    fn select_one(
        &mut self,
        alloc: Global,
        f: MonFn,
        origin: Cell,
        place: Place,
    ) -> Result<(), Halt>
        requires sound { IsSound self.old }
        requires selects { SelectsOne f }
        requires origin { IsOrigin origin }
        requires operand { 1 ≤ length self.old.stack }
        ensures { OnOk result (IsSound self.new) }
    {
        select_one(alloc, f, place, origin, &mut self.stack, &mut self.store)
    }

    // A reduction along the last axis.
    fn reduce(&mut self, alloc: Global, f: Dya, origin: Cell, place: Place) -> Result<(), Halt>
        requires sound { IsSound self.old }
        requires origin { IsOrigin origin }
        requires operand { 1 ≤ length self.old.stack }
        ensures { OnOk result (IsSound self.new) }
    {
        reduction(
            alloc,
            f,
            Axis::Last,
            place,
            origin,
            &mut self.stack,
            &mut self.store,
        )
    }

    /// The newest entry, where there is one.
    pub fn newest(&mut self, alloc: Global) -> Result<Newest, Halt>
        requires { IsSound self.old }
    {
        if self.stack.is_empty() {
            return Err(missing(Place { line: 0, column: 0 }));
        }
        let leaf = take_one(alloc, &mut self.stack, &mut self.store)?;
        let cells = read_cells(&leaf, &mut self.store)?;
        Ok(Newest {
            shape: leaf.desc().shape.copy(),
            cells,
        })
    }
}

// An operand is missing.
fn missing(place: Place) -> Halt {
    Halt::Error {
        kind: ErrorKind::Value,
        place,
    }
}
