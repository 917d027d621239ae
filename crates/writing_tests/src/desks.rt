//! Names and pending expressions over one store, as a machine has them.

ghost use Rattle.std.specs.Prelude.{◌≡◌, ℕ, false, IsTrue, IfOk, IfSome, IfNone, OnOk};
ghost use Rattle.array_store.specs.Follows.{LeafCounts, both};
ghost use Rattle.drag_along.specs.Nodes.{named_by_leaf};
ghost use Rattle.drag_along.specs.Segments.{IsSegment, named_by};
ghost use Rattle.drag_along.specs.Lawful.{IsLawful, IsLawfulLeaf};
ghost use Rattle.value_stack.specs.Stacks.{IsLawfulStack};
ghost use Rattle.writing_tests.specs.Desks.{IsSound, IsSoundBeside};

use crate::variables::Variables;
use alias_force::{before_write, settle};
use apl_base::{Cell, Dya, Kind, Name, NoMemory, Place};
use array_desc::Desc;
use array_store::{BeginFault, OwnerId, Store};
use beating::{Selection, select};
use drag_along::{Leaf, Segment, join2, leaf_interval};
use e_machine::{ForceFault, own};
use name_table::Names;
use std::alloc::Global;
use value_stack::Stack;

/// Names, pending expressions, and the store of the owners that both read.
#[derive(Drop)]
pub struct Desk {
    pub variables: Variables,
    pub stack: Stack,
    pub store: Store,
}

impl Desk {
    /// No name and no entry, and room for so many cells. It takes no memory.
    pub fn new(alloc: Global, limit: u64) -> Desk
        ensures { IsSound result }
    {
        Desk {
            variables: Variables {
                names: Names::new(alloc),
            },
            stack: Stack::new(alloc),
            store: Store::new(alloc, limit),
        }
    }

    /// Sets a name to the numbers from 1 up, as many as that, in an owner of their own.
    pub fn set(&mut self, alloc: Global, name: &Name, count: u8) -> Result<(), BeginFault>
        requires { IsSound self.old }
        ensures { OnOk result (IsSound self.new) }
    {
        let numbers = Leaf::Gen {
            desc: Desc::line(alloc, 1, 1, u64::from(count)),
            kind: Kind::Num,
        };
        let leaf = own(&numbers, &mut self.store)?;
        self.give(name, leaf)
    }

    /// Sets a name to what another one has, if it is set.
    pub fn share(&mut self, to: &Name, from: &Name) -> Result<(), BeginFault>
        requires { IsSound self.old }
        ensures { OnOk result (IsSound self.new) }
    {
        match self.held(from) {
            Some(leaf) => self.give(to, leaf),
            None => Ok(()),
        }
    }

    // Sets a name to a leaf in hand.
    fn give(&mut self, name: &Name, leaf: Leaf) -> Result<(), BeginFault>
        requires leaf { IsLawfulLeaf self.old.store leaf }
        requires beside { IsSoundBeside self.old (named_by_leaf leaf) }
        ensures { OnOk result (IsSound self.new) }
    {
        self.variables.names.set(name, leaf, &mut self.store)
    }

    // The leaf of a name, held once more.
    fn held(&mut self, name: &Name) -> Option<Leaf>
        requires { IsSound self.old }
        ensures lawful { IfSome result (IsLawfulLeaf self.new.store) }
        ensures beside { IfSome result (λ leaf. IsSoundBeside self.new (named_by_leaf leaf)) }
        ensures unset { IfNone result (IsSound self.new) }
    {
        // They tell the proof how many leaves there can be.
        let _depth = self.variables.names.depth();
        let _count = self.stack.len();
        match self.variables.names.get(name) {
            Some(leaf) => Some(leaf.held(&mut self.store)),
            None => None,
        }
    }

    /// The value of a name comes as the newest entry, if it is set.
    pub fn push_name(&mut self, alloc: Global, name: &Name) -> Result<(), NoMemory>
        requires { IsSound self.old }
        ensures { OnOk result (IsSound self.new) }
    {
        match self.held(name) {
            Some(leaf) => self.push_leaf(alloc, leaf),
            None => Ok(()),
        }
    }

    /// A number that is not stored comes as the newest entry.
    pub fn push_number(&mut self, alloc: Global, number: u8) -> Result<(), NoMemory>
        requires { IsSound self.old }
        ensures { OnOk result (IsSound self.new) }
    {
        let leaf = Leaf::Gen {
            desc: Desc::one(alloc, Cell::from(number)),
            kind: Kind::Num,
        };
        self.push_leaf(alloc, leaf)
    }

    // A leaf in hand comes as the newest entry.
    fn push_leaf(&mut self, alloc: Global, leaf: Leaf) -> Result<(), NoMemory>
        requires leaf { IsLawfulLeaf self.old.store leaf }
        requires beside { IsSoundBeside self.old (named_by_leaf leaf) }
        ensures { OnOk result (IsSound self.new) }
    {
        let range = leaf_interval(&leaf, &self.store);
        let segment = Segment::of_leaf(alloc, leaf, range)?;
        self.put(segment)
    }

    // An expression in hand comes as the newest entry.
    fn put(&mut self, segment: Segment) -> Result<(), NoMemory>
        requires segment { IsLawful self.old.store segment }
        requires beside { IsSoundBeside self.old (named_by segment) }
        ensures { OnOk result (IsSound self.new) }
    {
        self.stack.push(segment)
    }

    // The newest entry goes into hand.
    fn take(&mut self) -> Option<Segment>
        requires { IsLawfulStack self.old.store self.old.stack }
        ensures lawful { IfSome result (IsLawful self.new.store) }
        ensures beside { IfSome result (λ s. (hand : LeafCounts) → IsSoundBeside self.old hand
            → IsSoundBeside self.new (both (named_by s) hand)) }
        ensures store { self.new.store ≡ self.old.store }
        ensures none { IfNone result ((hand : LeafCounts)
            → IsSoundBeside self.old hand → IsSoundBeside self.new hand) }
    {
        self.stack.pop()
    }

    /// The newest entry is turned round along its first axis: whether it has one and may not fail. Otherwise it is
    /// gone.
    pub fn reverse(&mut self) -> Result<bool, NoMemory>
        requires { IsSound self.old }
        ensures { IfOk result (λ done. IsTrue done → IsSound self.new) }
    {
        let Some(mut segment) = self.take() else {
            return Ok(false);
        };
        if segment.may_fail || segment.shape.rank() == 0 {
            return Ok(false);
        }
        select(&mut segment, &Selection::Reverse { axis: 0 });
        self.put(segment)?;
        Ok(true)
    }

    /// The two newest entries become one, a function of both, the newest on the left: whether their shapes are alike
    /// and few functions are pending. Otherwise they are gone.
    pub fn join(&mut self, f: Dya, place: Place) -> Result<bool, NoMemory>
        requires { IsSound self.old }
        ensures { IfOk result (λ done. IsTrue done → IsSound self.new) }
    {
        let Some(left) = self.take() else {
            return Ok(false);
        };
        let Some(right) = self.take() else {
            return Ok(false);
        };
        let few = left.functions() + right.functions() < 64;
        if !few || left.shape.lengths() != right.shape.lengths() {
            return Ok(false);
        }
        let joined = join2(right, left, f, place)?;
        self.put(joined)?;
        Ok(true)
    }

    /// Every entry that may fail is forced.
    pub fn settle(&mut self, alloc: Global) -> Result<(), ForceFault>
        requires { IsSound self.old }
        ensures { IsSound self.new }
    {
        settle(alloc, &mut self.stack, &mut self.store)
    }

    /// The owner of a name is made free to be written, if the name is set and no entry may fail.
    pub fn make_writable(
        &mut self,
        alloc: Global,
        name: &Name,
    ) -> Result<Option<OwnerId>, BeginFault>
        requires { IsSound self.old }
        ensures { IsSound self.new }
    {
        if self.variables.names.get(name).is_none() {
            return Ok(None);
        }
        let None = self.stack.failing_from(0) else {
            return Ok(None);
        };
        let owner = before_write(
            alloc,
            &mut self.variables,
            &mut self.stack,
            &mut self.store,
            name,
        )?;
        Ok(Some(owner))
    }
}
