//! Leaves that are given to names.

ghost use Rattle.std.specs.Prelude.{◌≡◌, ◌<◌, None, length, IfErr, OnOk};
ghost use Rattle.array_store.specs.Follows.{LeafCounts, both};
ghost use Rattle.drag_along.specs.Nodes.{named_by_leaf};
ghost use Rattle.drag_along.specs.Lawful.{IsLawfulLeaf};
ghost use Rattle.value_stack.specs.Stacks.{MayFail, IsLeastOrNone};
ghost use Rattle.pending_steps.specs.Leaves.{IsStopped, PutsHeld};
ghost use Rattle.pending_steps.specs.Steps.{IsNotComputed, OnError};
ghost use Rattle.machine_state.specs.StandsFor.{IsLawfulMachine};
ghost use Rattle.machine_state.specs.Steps.{pending, Assigns, GivesLeaf, HasFewInHand, HasLeafInHand, IsSameCount, IsSameRun, Keeps};

use crate::machines::Machine;
use apl_base::{Name, NoMemory};
use array_store::BeginFault;
use drag_along::Leaf;
use pending_steps::{Halt, push_held, settle_entries, take_leaf};

impl Machine {
    /// The array of the newest entry is given to a name, and stays. Before, every entry that may fail is computed.
    pub fn assign(&mut self, name: &Name) -> Result<(), Halt>
        requires operand { 0 < length self.old.stack }
        requires lawful { HasFewInHand self.old }
        ensures assigns { OnOk result (Assigns self.old self.new name.now) }
        ensures keeps { OnError result (Keeps self.old self.new) }
        ensures halted { IfErr result (IsNotComputed self.old.store.limit (pending self.old)) }
        ensures run { IsSameCount self.old self.new }
    {
        let alloc = *self.costs.allocator();
        settle_entries(alloc, &mut self.stack, &mut self.store)?;
        self.assign_newest(name)
    }

    // The array of the newest entry is given to a name, where no entry may fail.
    fn assign_newest(&mut self, name: &Name) -> Result<(), Halt>
        requires operand { 0 < length self.old.stack }
        requires lawful { HasFewInHand self.old }
        requires safe { IsLeastOrNone MayFail self.old.stack 0 None }
        ensures assigns { OnOk result (Assigns self.old self.new name.now) }
        ensures stopped { IfErr result (IsStopped self.old.store.limit) }
        ensures run { IsSameCount self.old self.new }
    {
        let leaf = take_leaf(&mut self.stack, &mut self.store)?;
        self.push_in_hand(&leaf)?;
        self.give_leaf(name, leaf)
    }

    // A leaf in hand comes as the newest entry too, and is held once more.
    fn push_in_hand(&mut self, leaf: &Leaf) -> Result<(), NoMemory>
        requires leaf { IsLawfulLeaf self.old.store leaf.now }
        requires lawful { HasLeafInHand self.old leaf.now }
        ensures puts { OnOk result (PutsHeld self.old.store self.new.store
            self.old.stack self.new.stack leaf.now) }
        ensures run { IsSameRun self.old self.new }
    {
        let alloc = *self.costs.allocator();
        // They tell the proof how many leaves there can be.
        let _depth = self.names.depth();
        let _count = self.stack.len();
        push_held(alloc, leaf, &mut self.stack, &mut self.store)
    }

    /// A leaf in hand is given to a name, where the look-up finds it: the leaf itself where it fills its owner, else its
    /// copy. The entries mean what they meant.
    pub fn give_leaf(&mut self, name: &Name, leaf: Leaf) -> Result<(), Halt>
        requires leaf { IsLawfulLeaf self.old.store leaf }
        requires lawful { (hand : LeafCounts)
            × IsLawfulMachine self.old (both (named_by_leaf leaf) hand) }
        ensures gives { OnOk result (GivesLeaf self.old self.new name.now leaf) }
        ensures stopped { IfErr result (IsStopped self.old.store.limit) }
        ensures stack { self.new.stack ≡ self.old.stack }
        ensures run { IsSameCount self.old self.new }
    {
        match self.names.set(name, leaf, &mut self.store) {
            Ok(()) => Ok(()),
            Err(BeginFault::WsFull { live, asked }) => Err(Halt::WsFull { live, asked }),
            Err(BeginFault::NoMemory) => Err(Halt::NoMemory),
        }
    }
}
