//! Functions and reductions of the newest entry.

ghost use Rattle.std.specs.Prelude.{◌≤◌, length};
ghost use Rattle.array_store.specs.Follows.{none};
ghost use Rattle.apl_compile.specs.declared.codes.Op.TheVariants as op;
ghost use Rattle.machine_state.specs.StandsFor.{IsLawfulMachine};
ghost use Rattle.leaf_steps.specs.Making.{IsMadeOfOne};
ghost use Rattle.selection_choices.specs.Choices.{SelectsOne};
ghost use Rattle.entry_steps.specs.Changing.{ChangesOrHalts};

use apl_base::{Dya, Place};
use apl_model::{Axis, MonFn};
use leaf_steps::{made_one, reduction};
use machine_state::Machine;
use pending_steps::Halt;
use selecting_steps::select_one;

/// A function of the newest entry.
pub(crate) fn monadic(f: MonFn, place: Place, machine: &mut Machine) -> Result<(), Halt>
    requires operand { 1 ≤ length machine.old.stack }
    requires lawful { IsLawfulMachine machine.old none }
    ensures { ChangesOrHalts (record { place = place; op = op.Mon f })
        machine.old machine.new result }
{
    match f {
        MonFn::Scalar { f } => machine.monadic_scalar(f, place),
        MonFn::Reverse { .. } | MonFn::Transpose => rearrange(f, place, machine),
        MonFn::Iota | MonFn::Shape | MonFn::Ravel | MonFn::GradeUp | MonFn::GradeDown => {
            make(f, place, machine)
        }
    }
}

// A function that is made at once.
fn make(f: MonFn, place: Place, machine: &mut Machine) -> Result<(), Halt>
    requires made { IsMadeOfOne f }
    requires operand { 1 ≤ length machine.old.stack }
    requires lawful { IsLawfulMachine machine.old none }
    ensures { ChangesOrHalts (record { place = place; op = op.Mon f })
        machine.old machine.new result }
{
    let alloc = *machine.costs.allocator();
    let origin = machine.origin;
    made_one(
        alloc,
        f,
        place,
        origin,
        &mut machine.stack,
        &mut machine.store,
    )
}

// A function that only rearranges.
fn rearrange(f: MonFn, place: Place, machine: &mut Machine) -> Result<(), Halt>
    requires selects { SelectsOne f }
    requires operand { 1 ≤ length machine.old.stack }
    requires lawful { IsLawfulMachine machine.old none }
    ensures { ChangesOrHalts (record { place = place; op = op.Mon f })
        machine.old machine.new result }
{
    let alloc = *machine.costs.allocator();
    let origin = machine.origin;
    select_one(
        alloc,
        f,
        place,
        origin,
        &mut machine.stack,
        &mut machine.store,
    )
}

/// A reduction of the newest entry along an axis.
pub(crate) fn reduce(f: Dya, axis: Axis, place: Place, machine: &mut Machine) -> Result<(), Halt>
    requires operand { 1 ≤ length machine.old.stack }
    requires lawful { IsLawfulMachine machine.old none }
    ensures { ChangesOrHalts (record { place = place; op = op.Red f axis })
        machine.old machine.new result }
{
    let alloc = *machine.costs.allocator();
    let origin = machine.origin;
    reduction(
        alloc,
        f,
        axis,
        place,
        origin,
        &mut machine.stack,
        &mut machine.store,
    )
}
