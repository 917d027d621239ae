//! Branches.

ghost use Rattle.std.specs.Prelude.{◌≡◌, ◌<◌, length, IfErr, IfOk};
ghost use Rattle.apl_base.specs.Array.{size_of};
ghost use Rattle.array_store.specs.Counting.{OnlyCounted};
ghost use Rattle.drag_along.specs.Lawful.{IsLawfulLeaf};
ghost use Rattle.drag_along.specs.Nodes.{leaf_shape};
ghost use Rattle.apl_compile.specs.declared.codes.Op.TheVariants as op;
ghost use Rattle.apl_model.specs.Whole.{first};
ghost use Rattle.leaf_names.specs.Variables.{array_of};
ghost use Rattle.pending_steps.specs.Steps.{IsHalted};
ghost use Rattle.machine_state.specs.Steps.{pending, IsLawfulBeside, IsSameRun, Keeps};
ghost use Rattle.calling_steps.specs.Branches.{Branches, IsNoBranch, LeadsTo};
ghost use Rattle.calling_steps.specs.Ready.{AreArrays, IsComputed};

use crate::flows::Flow;
use crate::ready::{compute_newest, newest_leaf};
use apl_base::{Cell, ErrorKind, Kind, NoMemory, Place};
use array_store::Store;
use drag_along::Leaf;
use e_machine::read_places;
use machine_state::Machine;
use pending_steps::{Halt, drop_newest};
use std::alloc::Global;

/// The newest entry goes, and its array says where the statement goes: an empty one on to the next line, any other to the
/// line of its first element. DOMAIN ERROR for characters. Before, every entry that may fail is computed.
pub fn branch(machine: &mut Machine, place: Place) -> Result<Flow, Halt>
    requires operand { 0 < length machine.old.stack }
    requires lawful { IsLawfulBeside machine.old }
    ensures branches { IfOk result (λ to.
        Branches place to (pending machine.old) (pending machine.new)) }
    ensures keeps { Keeps machine.old machine.new }
    ensures halted { IfErr result (IsHalted (record { place = place; op = op.Goto }) 1
        machine.old.store.limit (pending machine.old)) }
    ensures run { IsSameRun machine.old machine.new }
{
    compute_newest(machine)?;
    branch_computed(machine, place)
}

// The newest entry, which is computed, goes, and says where the statement goes.
fn branch_computed(machine: &mut Machine, place: Place) -> Result<Flow, Halt>
    requires operand { 0 < length machine.old.stack }
    requires lawful { IsLawfulBeside machine.old }
    requires arrays { AreArrays machine.old }
    requires computed { IsComputed machine.old.stack }
    ensures branches { IfOk result (λ to.
        Branches place to (pending machine.old) (pending machine.new)) }
    ensures keeps { Keeps machine.old machine.new }
    ensures halted { IfErr result (IsHalted (record { place = place; op = op.Goto }) 1
        machine.old.store.limit (pending machine.old)) }
    ensures run { IsSameRun machine.old machine.new }
{
    let alloc = *machine.costs.allocator();
    let leaf = newest_leaf(&machine.stack);
    match flow_by(alloc, leaf, place, &mut machine.store) {
        Ok(to) => {
            drop_newest(&mut machine.stack, &mut machine.store);
            Ok(to)
        }
        Err(halt) => Err(halt),
    }
}

// Where a branch with the array of this leaf goes.
fn flow_by(alloc: Global, leaf: &Leaf, place: Place, store: &mut Store) -> Result<Flow, Halt>
    requires lawful { IsLawfulLeaf store.old leaf.now }
    ensures leads { IfOk result (LeadsTo place (array_of store.old leaf.now)) }
    ensures refused { IfErr result (IsNoBranch place (array_of store.old leaf.now)) }
    ensures counted { OnlyCounted store.old store.new }
{
    if leaf.desc().size() == 0 {
        return Ok(Flow::Onwards);
    }
    if leaf.kind() == Kind::Char {
        let kind = ErrorKind::Domain;
        return Err(Halt::Error { kind, place });
    }
    let number = first_cell(alloc, leaf, store)?;
    Ok(Flow::Line { number })
}

// The first cell of the array of a leaf.
fn first_cell(alloc: Global, leaf: &Leaf, store: &mut Store) -> Result<Cell, NoMemory>
    requires lawful { IsLawfulLeaf store.old leaf.now }
    requires some { 0 < size_of (leaf_shape leaf.now) }
    ensures cell { IfOk result (λ cell. cell ≡ first (array_of store.old leaf.now)) }
    ensures counted { OnlyCounted store.old store.new }
{
    let mut cells = Vec::with_capacity(alloc, 1)?;
    read_places(leaf, 0, 1, store, &mut cells);
    Ok(cells[0])
}
