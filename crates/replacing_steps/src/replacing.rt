//! The indexed assignment as an instruction.

ghost use Rattle.std.specs.Prelude.{◌≡◌, ◌+◌, ◌-◌, ◌≤◌, length, None, IsSome, IfOk, IfErr, OnOk};
ghost use Rattle.apl_model.specs.Environment.{look_up};
ghost use Rattle.alias_force.specs.Writing.{IsWritable};
ghost use Rattle.value_stack.specs.Stacks.{MayFail, IsLeastOrNone};
ghost use Rattle.pending_steps.specs.Leaves.{IsStopped};
ghost use Rattle.pending_steps.specs.Shapes.{AreFewer};
ghost use Rattle.pending_steps.specs.Steps.{OnError};
ghost use Rattle.indexing_steps.specs.Operands.{positions_in, AreComputed};
ghost use Rattle.machine_state.specs.Steps.{pending, IsLawfulBeside, IsSameCount, IsSameRun, Keeps};
ghost use Rattle.replacing_steps.specs.Replaces.{Replaces, IsReplaceHalted, IsToWrite, RefusesReplace, WritesPlaces};

use crate::checks::shape_selected;
use crate::ready::{Variables, make_ready};
use crate::writes::write_selected;
use alias_force::before_write;
use apl_base::{ErrorKind, Name, NoMemory, Place, Shape};
use array_store::{BeginFault, OwnerId};
use indexing_steps::{count_there, drop_many, leaf_at, positions_below};
use machine_state::Machine;
use name_table::Names;
use pending_steps::Halt;
use std::mem;

/// An indexed assignment: the newest entries are the positions that the mask says are there, the first one the newest, and
/// below them stands the value, which stays. The places of the name's array that the positions select are written in place,
/// one after the other in row-major order of the shape that they select, so that the last one stays; where anything else
/// reads the array, it is copied before. Every entry that may fail is computed before. VALUE ERROR comes where the name is
/// unset, then RANK ERROR, LENGTH ERROR, DOMAIN ERROR, INDEX ERROR and LIMIT ERROR, all before any write.
pub fn replace(machine: &mut Machine, name: &Name, mask: &[bool], place: Place) -> Result<(), Halt>
    requires operands { 1 + positions_in mask.now ≤ length machine.old.stack }
    requires lawful { IsLawfulBeside machine.old }
    ensures replaces { OnOk result (Replaces machine.old machine.new name.now mask.now) }
    ensures keeps { OnError result (Keeps machine.old machine.new) }
    ensures halted { IfErr result (IsReplaceHalted machine.old name.now mask.now place) }
    ensures run { IsSameCount machine.old machine.new }
{
    let alloc = *machine.costs.allocator();
    make_ready(alloc, mask, &mut machine.stack, &mut machine.store)?;
    check_and_write(machine, name, mask, place)
}

// An indexed assignment where no entry may fail, and positions and value are leaves.
fn check_and_write(
    machine: &mut Machine,
    name: &Name,
    mask: &[bool],
    place: Place,
) -> Result<(), Halt>
    requires operands { 1 + positions_in mask.now ≤ length machine.old.stack }
    requires computed { AreComputed machine.old.stack
        (length machine.old.stack - 1 - positions_in mask.now) (length machine.old.stack) }
    requires safe { IsLeastOrNone MayFail machine.old.stack 0 None }
    requires lawful { IsLawfulBeside machine.old }
    ensures replaces { OnOk result (Replaces machine.old machine.new name.now mask.now) }
    ensures keeps { OnError result (Keeps machine.old machine.new) }
    ensures halted { IfErr result (IsReplaceHalted machine.old name.now mask.now place) }
    ensures run { IsSameCount machine.old machine.new }
{
    match shape_to_write(machine, name, mask)? {
        Ok(selected) => write_and_drop(machine, name, mask, &selected),
        Err(kind) => Err(Halt::Error { kind, place }),
    }
}

// The shape that the positions select of the name's array, or the error of the assignment.
fn shape_to_write(
    machine: &mut Machine,
    name: &Name,
    mask: &[bool],
) -> Result<Result<Shape, ErrorKind>, NoMemory>
    requires operands { 1 + positions_in mask.now ≤ length machine.old.stack }
    requires computed { AreComputed machine.old.stack
        (length machine.old.stack - 1 - positions_in mask.now) (length machine.old.stack) }
    requires safe { IsLeastOrNone MayFail machine.old.stack 0 None }
    requires lawful { IsLawfulBeside machine.old }
    ensures shape { IfOk result (λ found. IfOk found
        (IsToWrite machine.new name.now mask.now)) }
    ensures refused { IfOk result (λ found. IfErr found
        (RefusesReplace machine.new name.now mask.now)) }
    ensures keeps { Keeps machine.old machine.new }
    ensures pending { pending machine.new ≡ pending machine.old }
    ensures stack { machine.new.stack ≡ machine.old.stack }
    ensures names { machine.new.names ≡ machine.old.names }
    ensures run { IsSameRun machine.old machine.new }
{
    let alloc = *machine.costs.allocator();
    let end = machine.stack.len();
    let positions = positions_below(alloc, mask, end, &machine.stack)?;
    let value = leaf_at(end - 1 - count_there(mask), &machine.stack);
    let array = match machine.names.get(name) {
        Some(array) => array.copy(),
        None => return Ok(Err(ErrorKind::Value)),
    };
    Ok(shape_selected(
        &array,
        &positions,
        &value,
        machine.origin,
        &mut machine.store,
    ))
}

// Writes, and lets the positions go.
fn write_and_drop(
    machine: &mut Machine,
    name: &Name,
    mask: &[bool],
    selected: &Shape,
) -> Result<(), Halt>
    requires operands { 1 + positions_in mask.now ≤ length machine.old.stack }
    requires computed { AreComputed machine.old.stack
        (length machine.old.stack - 1 - positions_in mask.now) (length machine.old.stack) }
    requires safe { IsLeastOrNone MayFail machine.old.stack 0 None }
    requires lawful { IsLawfulBeside machine.old }
    requires to_write { IsToWrite machine.old name.now mask.now selected.now }
    ensures replaces { OnOk result (Replaces machine.old machine.new name.now mask.now) }
    ensures stopped { IfErr result (IsStopped machine.old.store.limit) }
    ensures run { IsSameCount machine.old machine.new }
{
    let owner = free_to_write(machine, name)?;
    write_in_place(machine, name, mask, selected, owner)?;
    drop_many(count_there(mask), &mut machine.stack, &mut machine.store);
    Ok(())
}

// Makes the owner of a name free to be written. Each entry means what it meant.
fn free_to_write(machine: &mut Machine, name: &Name) -> Result<OwnerId, Halt>
    requires bound { IsSome (look_up machine.old.names name.now) }
    requires safe { IsLeastOrNone MayFail machine.old.stack 0 None }
    requires lawful { IsLawfulBeside machine.old }
    ensures writable { IfOk result (IsWritable machine.new.store machine.new.names
        machine.new.stack name.now) }
    ensures fewer { OnOk result (AreFewer machine.old.stack machine.new.stack) }
    ensures safe { IsLeastOrNone MayFail machine.new.stack 0 None }
    ensures length { length machine.new.stack ≡ length machine.old.stack }
    ensures keeps { Keeps machine.old machine.new }
    ensures pending { pending machine.new ≡ pending machine.old }
    ensures stopped { IfErr result (IsStopped machine.old.store.limit) }
    ensures run { IsSameCount machine.old machine.new }
{
    let alloc = *machine.costs.allocator();
    let mut variables = Variables {
        names: mem::replace(&mut machine.names, Names::new(alloc)),
    };
    let freed = before_write(
        alloc,
        &mut variables,
        &mut machine.stack,
        &mut machine.store,
        name,
    );
    machine.names = variables.names;
    match freed {
        Ok(owner) => Ok(owner),
        Err(BeginFault::WsFull { live, asked }) => Err(Halt::WsFull { live, asked }),
        Err(BeginFault::NoMemory) => Err(Halt::NoMemory),
    }
}

// Writes the value to the places of a name's array that are selected, where nothing else reads its owner.
fn write_in_place(
    machine: &mut Machine,
    name: &Name,
    mask: &[bool],
    selected: &Shape,
    owner: OwnerId,
) -> Result<(), NoMemory>
    requires operands { 1 + positions_in mask.now ≤ length machine.old.stack }
    requires computed { AreComputed machine.old.stack
        (length machine.old.stack - 1 - positions_in mask.now) (length machine.old.stack) }
    requires safe { IsLeastOrNone MayFail machine.old.stack 0 None }
    requires lawful { IsLawfulBeside machine.old }
    requires writable { IsWritable machine.old.store machine.old.names
        machine.old.stack name.now owner }
    requires to_write { IsToWrite machine.old name.now mask.now selected.now }
    ensures writes { OnOk result (WritesPlaces machine.old machine.new name.now mask.now) }
    ensures stack { machine.new.stack ≡ machine.old.stack }
    ensures run { IsSameRun machine.old machine.new }
{
    let alloc = *machine.costs.allocator();
    let end = machine.stack.len();
    let positions = positions_below(alloc, mask, end, &machine.stack)?;
    let value = leaf_at(end - 1 - count_there(mask), &machine.stack);
    let Some(array) = machine.names.get(name) else {
        unreachable!()
    };
    let origin = machine.origin;
    let desc = array.desc();
    write_selected(
        owner,
        desc,
        &positions,
        &value,
        selected,
        origin,
        &mut machine.store,
    )
}
