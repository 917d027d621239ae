//! Subscripts of the newest entry.

ghost use Rattle.std.specs.Prelude.{◌+◌, ◌≤◌, length};
ghost use Rattle.array_store.specs.Follows.{none};
ghost use Rattle.apl_compile.specs.declared.codes.Op.TheVariants as op;
ghost use Rattle.machine_state.specs.StandsFor.{IsLawfulMachine};
ghost use Rattle.indexing_steps.specs.Operands.{positions_in};
ghost use Rattle.entry_steps.specs.Changing.{ChangesOrHalts};

use apl_base::Place;
use indexing_steps::subscript;
use machine_state::Machine;
use pending_steps::Halt;

/// A subscript of the newest entry, by the positions below it that the mask says are there.
pub(crate) fn index(mask: &[bool], place: Place, machine: &mut Machine) -> Result<(), Halt>
    requires operands { 1 + positions_in mask.now ≤ length machine.old.stack }
    requires lawful { IsLawfulMachine machine.old none }
    ensures { ChangesOrHalts (record { place = place; op = op.Index mask.now })
        machine.old machine.new result }
{
    let alloc = *machine.costs.allocator();
    let origin = machine.origin;
    subscript(
        alloc,
        mask,
        place,
        origin,
        &mut machine.stack,
        &mut machine.store,
    )
}
