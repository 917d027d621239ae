//! The end of all calls.

ghost use Rattle.std.specs.Prelude.{◌≡◌, []};
ghost use Rattle.machine_state.specs.Steps.{IsLawfulBeside, IsSameCount};
ghost use Rattle.calling_steps.specs.Calls.{EndsAll};

use crate::leaving::unwind_one;
use machine_state::Machine;
use pending_steps::drop_newest;

/// All calls end: every frame goes, and every entry. It takes no memory.
pub fn end_all(machine: &mut Machine)
    requires lawful { IsLawfulBeside machine.old }
    ensures ends { EndsAll machine.old machine.new }
    ensures run { IsSameCount machine.old machine.new }
{
    for _ in 0..machine.names.depth() {
        unwind_one(machine);
    }
    for _ in 0..machine.stack.len() {
        drop_newest(&mut machine.stack, &mut machine.store);
    }
}
