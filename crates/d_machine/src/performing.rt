//! One instruction.

ghost use Rattle.std.specs.Prelude.{◌≡◌, ◌+◌, ◌-◌, ◌^◌, ◌≤◌, OnOk};
ghost use Rattle.array_store.specs.Follows.{none};
ghost use Rattle.apl_compile.specs.declared.codes.Op.TheVariants as op;
ghost use Rattle.machine_state.specs.StandsFor.{IsLawfulMachine};
ghost use Rattle.machine_state.specs.Steps.{pending};
ghost use Rattle.entry_steps.specs.Sound.{HasLawfulLiteral};
ghost use Rattle.d_machine.specs.Calling.{IsSoundProgram};
ghost use Rattle.d_machine.specs.Running.{scene, AnswersInstruction, IsSameCall, Stays, UnlessCutOff};
ghost use Rattle.entry_steps.specs.Changing.{IsReady};

use crate::breaks::Break;
use crate::calling::call;
use apl_compile::{Instruction, Op, Program};
use apl_outside::Sink;
use calling_steps::{Flow, branch, print, show};
use entry_steps::change_entries;
use machine_state::Machine;
use replacing_steps::replace;

/// Does an instruction of a statement, whose own entries stand above so many others and which leads there so far, and tells
/// where it leads then. The end of the statement is not among them.
#[cycle(run)]
pub(crate) fn perform<O: Sink, T: Sink>(
    program: &Program,
    base: usize,
    instruction: &Instruction,
    to: Flow,
    machine: &mut Machine,
    out: &mut O,
    trace: &mut T,
) -> Result<Flow, Break>
    requires program { IsSoundProgram program.now }
    requires inner { ¬ (instruction.now.op ≡ op.End) }
    requires literal { HasLawfulLiteral instruction.now.op }
    requires ready { IsReady instruction.now.op base (pending machine.old) }
    requires turns { machine.old.begun + machine.old.turns_left ≤ 2 ^ 64 - 1 }
    requires lawful { IsLawfulMachine machine.old none }
    ensures answers { AnswersInstruction program.now base instruction.now
        (scene machine.old (O.written out.old) (O.faults out.old) (T.written trace.old) (T.faults trace.old))
        (scene machine.new (O.written out.new) (O.faults out.new) (T.written trace.new) (T.faults trace.new))
        to result }
    ensures stays { Stays
        (scene machine.old (O.written out.old) (O.faults out.old) (T.written trace.old) (T.faults trace.old))
        (scene machine.new (O.written out.new) (O.faults out.new) (T.written trace.new) (T.faults trace.new)) }
    ensures lawful { UnlessCutOff result (IsLawfulMachine machine.new none) }
    ensures call { OnOk result (IsSameCall machine.old machine.new) }
{
    match &instruction.op {
        Op::Lit { .. }
        | Op::Name { .. }
        | Op::Mon { .. }
        | Op::Dya { .. }
        | Op::Red { .. }
        | Op::Outer { .. }
        | Op::Inner { .. }
        | Op::Index { .. } => change_entries(instruction, machine)?,
        Op::Asg { name } => machine.assign(name)?,
        Op::Iasg { name, mask } => replace(machine, name, mask.as_slice(), instruction.place)?,
        Op::Call {
            f,
            arguments,
            whole,
        } => {
            let place = instruction.place;
            call(program, f, *arguments, *whole, place, machine, out, trace)?;
        }
        Op::Show => show(machine, out)?,
        Op::Print => {
            // A call may have left no value.
            if machine.stack.len() > base {
                print(machine, out)?;
            }
            return Ok(Flow::Onwards);
        }
        Op::Goto => return Ok(branch(machine, instruction.place)?),
        Op::End => unreachable!(),
    }
    Ok(to)
}
