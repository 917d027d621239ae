//! Arguments and labels, set in the frame of a call.

ghost use Rattle.std.specs.Prelude.{◌≡◌, ◌≤◌, ◌<◌, ◌^◌, length, pos, true, Some, IfErr, IfOk, OnOk};
ghost use Rattle.apl_model.specs.Frames.{line_number};
ghost use Rattle.drag_along.specs.Nodes.{named_by_leaf};
ghost use Rattle.drag_along.specs.Lawful.{IsLawfulLeaf};
ghost use Rattle.array_store.specs.Follows.{LeafCounts, both};
ghost use Rattle.name_table.specs.Laws.{with_argument};
ghost use Rattle.pending_steps.specs.Leaves.{IsStopped};
ghost use Rattle.pending_steps.specs.Literals.{IsLiteralLeaf};
ghost use Rattle.machine_state.specs.StandsFor.{IsLawfulMachine};
ghost use Rattle.machine_state.specs.Steps.{pending, GivesLeaf, IsLawfulBeside, IsSameCount, IsSameRun};
ghost use Rattle.calling_steps.specs.Ready.{AreArrays, Changes, GivesTo, Passes, TakesInHand};

use apl_base::{Kind, Name};
use array_desc::Desc;
use drag_along::Leaf;
use machine_state::Machine;
use pending_steps::{Halt, settle_entries, take_leaf};
use std::alloc::Global;

// Where it is asked for, the newest entry goes, and its array is given to the name, where there is one.
pub(crate) fn pass(machine: &mut Machine, asked: bool, name: &Option<Name>) -> Result<(), Halt>
    requires operand { asked ≡ true → 0 < length machine.old.stack }
    requires lawful { IsLawfulBeside machine.old }
    requires arrays { AreArrays machine.old }
    ensures passes { OnOk result
        (Passes machine.old machine.new asked name.now) }
    ensures stopped { IfErr result (IsStopped machine.old.store.limit) }
    ensures run { IsSameCount machine.old machine.new }
{
    if !asked {
        return Ok(());
    }
    let leaf = take_newest(machine)?;
    give(machine, name, leaf)
}

// The newest entry goes into hand as a leaf.
fn take_newest(machine: &mut Machine) -> Result<Leaf, Halt>
    requires operand { 0 < length machine.old.stack }
    requires lawful { IsLawfulBeside machine.old }
    requires arrays { AreArrays machine.old }
    ensures takes { IfOk result (TakesInHand machine.old machine.new) }
    ensures stopped { IfErr result (IsStopped machine.old.store.limit) }
    ensures run { IsSameRun machine.old machine.new }
{
    let alloc = *machine.costs.allocator();
    match settle_entries(alloc, &mut machine.stack, &mut machine.store) {
        Ok(()) => take_leaf(&mut machine.stack, &mut machine.store),
        Err(halt) => Err(halt),
    }
}

// A leaf in hand is given to the name, or let go where there is none.
fn give(machine: &mut Machine, name: &Option<Name>, leaf: Leaf) -> Result<(), Halt>
    requires leaf { IsLawfulLeaf machine.old.store leaf }
    requires lawful { (hand : LeafCounts)
        × IsLawfulMachine machine.old (both (named_by_leaf leaf) hand) }
    ensures gives { OnOk result (GivesTo machine.old machine.new name.now leaf) }
    ensures stopped { IfErr result (IsStopped machine.old.store.limit) }
    ensures run { IsSameCount machine.old machine.new }
{
    match name {
        Some(name) => machine.give_leaf(name, leaf),
        None => {
            leaf.release(&mut machine.store);
            Ok(())
        }
    }
}

// A label, where there is one, is set to the number of its line.
pub(crate) fn set_label(
    machine: &mut Machine,
    label: &Option<Name>,
    number: u64,
) -> Result<(), Halt>
    requires lawful { IsLawfulBeside machine.old }
    ensures label { OnOk result (Changes machine.old machine.new
        (with_argument label.now (Some (line_number number)))) }
    ensures stopped { IfErr result (IsStopped machine.old.store.limit) }
    ensures run { IsSameCount machine.old machine.new }
{
    let Some(label) = label else {
        return Ok(());
    };
    let leaf = number_leaf(*machine.costs.allocator(), number);
    machine.give_leaf(label, leaf)
}

// A number as a leaf that is not stored.
fn number_leaf(alloc: Global, number: u64) -> Leaf
    ensures { IsLiteralLeaf Kind.Num (pos number) result }
{
    Leaf::Gen {
        desc: Desc::one(alloc, number as i128),
        kind: Kind::Num,
    }
}
