//! The end of a call.

ghost use Rattle.std.specs.Prelude.{◌≡◌, ℕ, List, ◌<◌, ◌↔◌, length, IfOk, IsSome, IsTrue, OnOk, Some};
ghost use Rattle.apl_model.specs.Environment.{look_up};
ghost use Rattle.apl_model.specs.Frames.{result_in};
ghost use Rattle.pending_steps.specs.Leaves.{PutsHeld};
ghost use Rattle.machine_state.specs.Steps.{HasFewInHand, IsLawfulBeside, IsSameCount, IsSameRun};
ghost use Rattle.machine_state.specs.StandsFor.{variables};
ghost use Rattle.calling_steps.specs.Calls.{Leaves};
ghost use Rattle.calling_steps.specs.Ready.{PutsResult, UnwindsOne};

use apl_base::{Name, NoMemory};
use apl_model::Header;
use drag_along::Leaf;
use machine_state::Machine;
use pending_steps::push_held;

/// A call of a function with this header ends: the value that the result's name has comes as the newest entry, where there
/// is one, and the innermost frame goes. It tells whether there is one.
pub fn leave(machine: &mut Machine, header: &Header) -> Result<bool, NoMemory>
    requires frame { 0 < length machine.old.names.frames }
    requires lawful { HasFewInHand machine.old }
    ensures leaves { OnOk result (Leaves machine.old machine.new header.now.result) }
    ensures given { IfOk result (λ given. IsTrue given
        ↔ IsSome (result_in (variables machine.old) header.now.result)) }
    ensures run { IsSameCount machine.old machine.new }
{
    let given = push_result(machine, &header.result)?;
    unwind_one(machine);
    Ok(given)
}

// The value of the name, where there is one, comes as the newest entry.
fn push_result(machine: &mut Machine, name: &Option<Name>) -> Result<bool, NoMemory>
    requires lawful { HasFewInHand machine.old }
    ensures puts { OnOk result (PutsResult machine.old machine.new name.now) }
    ensures given { IfOk result (λ given. IsTrue given
        ↔ IsSome (result_in (variables machine.old) name.now)) }
    ensures run { IsSameRun machine.old machine.new }
{
    let Some(name) = name else {
        return Ok(false);
    };
    match machine.names.get(name) {
        Some(leaf) => {
            let leaf = leaf.copy();
            push_bound(machine, &leaf)?;
            Ok(true)
        }
        None => Ok(false),
    }
}

// The leaf of a name comes as the newest entry, held once more.
fn push_bound(machine: &mut Machine, leaf: &Leaf) -> Result<(), NoMemory>
    requires lawful { HasFewInHand machine.old }
    requires bound { (name : List ℕ) × (look_up machine.old.names name ≡ Some leaf.now) }
    ensures puts { OnOk result (PutsHeld machine.old.store machine.new.store
        machine.old.stack machine.new.stack leaf.now) }
    ensures run { IsSameRun machine.old machine.new }
{
    let alloc = *machine.costs.allocator();
    // They tell the proof how many leaves there can be.
    let _depth = machine.names.depth();
    let _count = machine.stack.len();
    push_held(alloc, leaf, &mut machine.stack, &mut machine.store)
}

// The innermost frame goes.
pub(crate) fn unwind_one(machine: &mut Machine)
    requires frame { 0 < length machine.old.names.frames }
    requires lawful { IsLawfulBeside machine.old }
    ensures unwinds { UnwindsOne machine.old machine.new }
    ensures run { IsSameCount machine.old machine.new }
{
    machine.names.unwind(&mut machine.store);
}
