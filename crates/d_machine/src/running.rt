//! The code of a statement, instruction after instruction.

ghost use Rattle.std.specs.Prelude.{◌≡◌, ◌+◌, ◌-◌, ◌^◌, ◌≤◌, ◌++◌, List, length, OnOk, IfErr};
ghost use Rattle.array_store.specs.Follows.{none};
ghost use Rattle.drag_along.specs.Meaning.{Meaning};
ghost use Rattle.pending_steps.specs.Steps.{IsNotComputed, Reaches};
ghost use Rattle.machine_state.specs.StandsFor.{IsLawfulMachine};
ghost use Rattle.machine_state.specs.Steps.{pending, IsSameRun, Keeps};
ghost use Rattle.entry_steps.specs.Sound.{IsSoundCode};
ghost use Rattle.d_machine.specs.Calling.{IsSoundProgram};
ghost use Rattle.d_machine.specs.Running.{scene, AreAllArrays, RunsCode, UnlessCutOff};

use crate::breaks::Break;
use crate::performing::perform;
use apl_compile::{Code, Op, Program};
use apl_outside::Sink;
use calling_steps::Flow;
use machine_state::Machine;
use pending_steps::{Halt, drop_newest, settle_entries};

/// Runs the code of a statement above the entries that are pending, and tells where it leads.
#[cycle(run)]
pub(crate) fn run_code<O: Sink, T: Sink>(
    program: &Program,
    code: &Code,
    machine: &mut Machine,
    out: &mut O,
    trace: &mut T,
) -> Result<Flow, Break>
    requires program { IsSoundProgram program.now }
    requires code { IsSoundCode code.now.instructions }
    requires below { AreAllArrays (pending machine.old) }
    requires turns { machine.old.begun + machine.old.turns_left ≤ 2 ^ 64 - 1 }
    requires lawful { IsLawfulMachine machine.old none }
    ensures runs { RunsCode program.now code.now.instructions
        (scene machine.old (O.written out.old) (O.faults out.old) (T.written trace.old) (T.faults trace.old))
        (scene machine.new (O.written out.new) (O.faults out.new) (T.written trace.new) (T.faults trace.new))
        result }
    ensures below { OnOk result (pending machine.new ≡ pending machine.old) }
    ensures lawful { UnlessCutOff result (IsLawfulMachine machine.new none) }
    ensures depth { OnOk result
        (length machine.new.names.frames ≡ length machine.old.names.frames) }
{
    let base = machine.stack.len();
    let mut to = Flow::Onwards;
    for instruction in code.instructions.as_slice() {
        if matches!(instruction.op, Op::End) {
            finish(base, machine)?;
            return Ok(to);
        }
        to = perform(program, base, instruction, to, machine, out, trace)?;
    }
    unreachable!()
}

// The end of a statement: its value is let go, where there is one, after the fault of any entry.
fn finish(base: usize, machine: &mut Machine) -> Result<(), Halt>
    requires base { base ≤ length machine.old.stack }
    requires one { length machine.old.stack ≤ base + 1 }
    requires lawful { IsLawfulMachine machine.old none }
    requires below { base ≡ length machine.old.stack → AreAllArrays (pending machine.old) }
    ensures arrays { OnOk result (AreAllArrays (pending machine.old)) }
    ensures ends { OnOk result ((older younger : List Meaning)
        → pending machine.old ≡ older ++ younger → length older ≡ base
        → pending machine.new ≡ older) }
    ensures keeps { Reaches result (Keeps machine.old machine.new) }
    ensures halted { IfErr result (IsNotComputed machine.old.store.limit (pending machine.old)) }
    ensures run { IsSameRun machine.old machine.new }
{
    if machine.stack.len() == base {
        return Ok(());
    }
    let alloc = *machine.costs.allocator();
    settle_entries(alloc, &mut machine.stack, &mut machine.store)?;
    drop_newest(&mut machine.stack, &mut machine.store);
    Ok(())
}
