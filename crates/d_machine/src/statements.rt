//! The run of a statement.

ghost use Rattle.std.specs.Prelude.{◌≡◌};
ghost use Rattle.machine_state.specs.StandsFor.{IsAtRest};
ghost use Rattle.standing.specs.Statements.{HasStatementAt};
ghost use Rattle.d_machine.specs.Answers.{RunsStatement};
ghost use Rattle.d_machine.specs.Running.{scene, last_line, IsLawfulStop, LeavesStopped};

use crate::answers::{Step, Stop};
use crate::breaks::Break;
use crate::turns::turn;
use apl_compile::{Code, Program};
use apl_outside::Sink;
use calling_steps::end_all;
use machine_state::Machine;

/// Runs the statement of this number, which stands outside definitions, by its code.
///
/// It answers `Done`, or the kind and the place of the error at which evaluation ends. An error ends all calls, and the
/// machine is at rest after either. It stops with `Spent` where a statement would begin and none may any more, with
/// `WsFull` where cells have no room, with `NoMemory`, and where a sink failed.
pub fn run_statement<O: Sink, T: Sink>(
    machine: &mut Machine,
    program: &Program,
    at: usize,
    out: &mut O,
    trace: &mut T,
) -> Result<Step, Stop>
    requires statement { HasStatementAt program.now at }
    requires rest { IsAtRest machine.old }
    ensures { RunsStatement program.now at
        (scene machine.old (O.written out.old) (O.faults out.old) (T.written trace.old) (T.faults trace.old))
        (scene machine.new (O.written out.new) (O.faults out.new) (T.written trace.new) (T.faults trace.new))
        result }
{
    let Some(code) = program.code(at) else {
        unreachable!()
    };
    match turn(program, line_of(code), code, machine, out, trace) {
        Ok(_) => Ok(Step::Done),
        Err(Break::Error { kind, place }) => {
            end_all(machine);
            Ok(Step::Error { kind, place })
        }
        Err(Break::Stop(stop)) => {
            end_stopped(stop, machine);
            Err(stop)
        }
    }
}

// A run that was stopped ends: where it is spent, all calls end and every entry goes.
fn end_stopped(stop: Stop, machine: &mut Machine)
    requires lawful { IsLawfulStop stop machine.old }
    ensures { LeavesStopped stop machine.old machine.new }
{
    match stop {
        Stop::Spent => end_all(machine),
        Stop::WsFull { .. } | Stop::NoMemory | Stop::OutFault | Stop::TraceFault => {}
    }
}

// The line of a statement: that on which its code ends.
fn line_of(code: &Code) -> u32
    ensures { result ≡ last_line code.now.instructions }
{
    let last = code.instructions.len().saturating_sub(1);
    match code.instructions.get(last) {
        Some(instruction) => instruction.place.line,
        None => 0,
    }
}
