//! Functions and products of the two newest entries, the left argument the newest.

ghost use Rattle.std.specs.Prelude.{◌≤◌, length};
ghost use Rattle.array_store.specs.Follows.{none};
ghost use Rattle.apl_compile.specs.declared.codes.Op.TheVariants as op;
ghost use Rattle.machine_state.specs.StandsFor.{IsLawfulMachine};
ghost use Rattle.leaf_steps.specs.Making.{IsMadeOfTwo};
ghost use Rattle.selection_choices.specs.Choices.{SelectsTwo};
ghost use Rattle.entry_steps.specs.Changing.{ChangesOrHalts};

use apl_base::{Dya, Place};
use apl_model::DyaFn;
use leaf_steps::{inner_product, made_two, outer_product};
use machine_state::Machine;
use pending_steps::Halt;
use taking_steps::select_two;

/// A function of the two newest entries.
pub(crate) fn dyadic(f: DyaFn, place: Place, machine: &mut Machine) -> Result<(), Halt>
    requires operands { 2 ≤ length machine.old.stack }
    requires lawful { IsLawfulMachine machine.old none }
    ensures { ChangesOrHalts (record { place = place; op = op.Dya f })
        machine.old machine.new result }
{
    match f {
        DyaFn::Scalar { f } => machine.dyadic_scalar(f, place),
        DyaFn::Transpose | DyaFn::Take | DyaFn::Skip => rearrange(f, place, machine),
        DyaFn::Reshape
        | DyaFn::Catenate
        | DyaFn::Rotate { .. }
        | DyaFn::Compress { .. }
        | DyaFn::Expand { .. }
        | DyaFn::IndexOf
        | DyaFn::Member
        | DyaFn::Encode
        | DyaFn::Decode => make(f, place, machine),
    }
}

// A function that is made at once.
fn make(f: DyaFn, place: Place, machine: &mut Machine) -> Result<(), Halt>
    requires made { IsMadeOfTwo f }
    requires operands { 2 ≤ length machine.old.stack }
    requires lawful { IsLawfulMachine machine.old none }
    ensures { ChangesOrHalts (record { place = place; op = op.Dya f })
        machine.old machine.new result }
{
    let alloc = *machine.costs.allocator();
    let origin = machine.origin;
    made_two(
        alloc,
        f,
        place,
        origin,
        &mut machine.stack,
        &mut machine.store,
    )
}

// A function that only rearranges the right argument, where counts that are taken fit.
fn rearrange(f: DyaFn, place: Place, machine: &mut Machine) -> Result<(), Halt>
    requires selects { SelectsTwo f }
    requires operands { 2 ≤ length machine.old.stack }
    requires lawful { IsLawfulMachine machine.old none }
    ensures { ChangesOrHalts (record { place = place; op = op.Dya f })
        machine.old machine.new result }
{
    let alloc = *machine.costs.allocator();
    let origin = machine.origin;
    select_two(
        alloc,
        f,
        place,
        origin,
        &mut machine.stack,
        &mut machine.store,
    )
}

/// An inner product of the two newest entries.
pub(crate) fn multiply(f: Dya, g: Dya, place: Place, machine: &mut Machine) -> Result<(), Halt>
    requires operands { 2 ≤ length machine.old.stack }
    requires lawful { IsLawfulMachine machine.old none }
    ensures { ChangesOrHalts (record { place = place; op = op.Inner f g })
        machine.old machine.new result }
{
    let alloc = *machine.costs.allocator();
    inner_product(alloc, f, g, place, &mut machine.stack, &mut machine.store)
}

/// An outer product of the two newest entries.
pub(crate) fn multiply_all(f: Dya, place: Place, machine: &mut Machine) -> Result<(), Halt>
    requires operands { 2 ≤ length machine.old.stack }
    requires lawful { IsLawfulMachine machine.old none }
    ensures { ChangesOrHalts (record { place = place; op = op.Outer f })
        machine.old machine.new result }
{
    let alloc = *machine.costs.allocator();
    outer_product(alloc, f, place, &mut machine.stack, &mut machine.store)
}
