//! Calls.

ghost use Rattle.std.specs.Prelude.{◌≡◌, ℕ, ◌+◌, ◌-◌, ◌^◌, ◌≤◌, length, Err, OnOk};
ghost use Rattle.array_store.specs.Follows.{none};
ghost use Rattle.apl_compile.specs.declared.codes.Op.TheVariants as op;
ghost use Rattle.machine_state.specs.StandsFor.{IsLawfulMachine};
ghost use Rattle.pending_steps.specs.Steps.{OnError};
ghost use Rattle.machine_state.specs.Steps.{pending, IsSameRun, Keeps};
ghost use Rattle.entry_steps.specs.Changing.{IsReady};
ghost use Rattle.d_machine.specs.Calling.{AnswersCall, IsNoCall, IsSoundProgram};
ghost use Rattle.d_machine.specs.Running.{scene, IsSameCall, Stays, UnlessCutOff};

use crate::answers::Stop;
use crate::breaks::Break;
use crate::lines::run_lines;
use apl_base::{ErrorKind, Name, Place};
use apl_compile::Program;
use apl_model::OutlineItem;
use apl_outside::Sink;
use calling_steps::{MOST_CALLS, enter, leave};
use machine_state::Machine;
use pending_steps::{Halt, settle_entries};

/// Calls the function of this name with so many arguments, which are taken from the entries: a frame comes, the lines of
/// the function are run, the frame goes, and the result comes as the newest entry. A call that is the `whole` statement
/// may have none; for any other that is a VALUE ERROR at its place. DEPTH ERROR where 256 calls are pending.
#[cycle(run)]
pub(crate) fn call<O: Sink, T: Sink>(
    program: &Program,
    f: &Name,
    arguments: u8,
    whole: bool,
    place: Place,
    machine: &mut Machine,
    out: &mut O,
    trace: &mut T,
) -> Result<(), Break>
    requires program { IsSoundProgram program.now }
    requires ready { (base : ℕ)
        × IsReady (op.Call f.now arguments whole) base (pending machine.old) }
    requires turns { machine.old.begun + machine.old.turns_left ≤ 2 ^ 64 - 1 }
    requires lawful { IsLawfulMachine machine.old none }
    ensures answers { AnswersCall program.now
        (record { place = place; op = op.Call f.now arguments whole })
        (scene machine.old (O.written out.old) (O.faults out.old) (T.written trace.old) (T.faults trace.old))
        (scene machine.new (O.written out.new) (O.faults out.new) (T.written trace.new) (T.faults trace.new))
        result }
    ensures stays { Stays
        (scene machine.old (O.written out.old) (O.faults out.old) (T.written trace.old) (T.faults trace.old))
        (scene machine.new (O.written out.new) (O.faults out.new) (T.written trace.new) (T.faults trace.new)) }
    ensures lawful { UnlessCutOff result (IsLawfulMachine machine.new none) }
    ensures call { OnOk result (IsSameCall machine.old machine.new) }
{
    let Some(function) = program.function(f) else {
        return Err(Break::from(refuse(place, machine)));
    };
    let Some(item) = program.outline().items.get(function.item) else {
        unreachable!()
    };
    let OutlineItem::Definition { header, body, .. } = item else {
        unreachable!()
    };
    enter(machine, header, body.as_slice(), arguments, place)?;
    run_lines(program, body.as_slice(), function.code, machine, out, trace)?;
    let Ok(given) = leave(machine, header) else {
        return Err(Break::Stop(Stop::NoMemory));
    };
    if given || whole {
        return Ok(());
    }
    let kind = ErrorKind::Value;
    Err(Break::Error { kind, place })
}

// The error of a name that heads no definition, as no accepted script has one. Before, every entry that may fail is
// computed.
fn refuse(place: Place, machine: &mut Machine) -> Halt
    requires lawful { IsLawfulMachine machine.old none }
    ensures halted { IsNoCall machine.old place result }
    ensures keeps { OnError (Err result) (Keeps machine.old machine.new) }
    ensures run { IsSameRun machine.old machine.new }
{
    let alloc = *machine.costs.allocator();
    match settle_entries(alloc, &mut machine.stack, &mut machine.store) {
        Err(halt) => halt,
        Ok(()) if machine.names.depth() < MOST_CALLS => Halt::Error {
            kind: ErrorKind::Value,
            place,
        },
        Ok(()) => Halt::Error {
            kind: ErrorKind::Depth,
            place,
        },
    }
}
