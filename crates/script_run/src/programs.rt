//! The run of a program.

ghost use Rattle.machine_state.specs.StandsFor.{IsAtRest};
ghost use Rattle.d_machine.specs.Running.{scene};
ghost use Rattle.script_run.specs.ProgramRuns.{IsCompiled, RunsProgram};

use crate::ends::End;
use crate::items::{code_count, run_item};
use apl_compile::Program;
use apl_outside::Sink;
use d_machine::Stop;
use machine_state::Machine;

/// Runs a program from its first item to its last: statements, each with its report where an error ends it, and commands.
/// It says whether an error was reported. It stops with `Spent` where a statement would begin and none may any more, with
/// `WsFull` where cells have no room, with `NoMemory`, and where a sink failed.
pub fn run_program<O: Sink, T: Sink>(
    machine: &mut Machine,
    program: &Program,
    out: &mut O,
    trace: &mut T,
) -> Result<End, Stop>
    requires compiled { IsCompiled program.now }
    requires rest { IsAtRest machine.old }
    ensures { RunsProgram program.now
        (scene machine.old (O.written out.old) (O.faults out.old) (T.written trace.old) (T.faults trace.old))
        (scene machine.new (O.written out.new) (O.faults out.new) (T.written trace.new) (T.faults trace.new))
        result }
{
    let mut end = End::Done;
    let mut code = 0;
    for item in program.outline().items.as_slice() {
        match run_item(machine, program, item, code, end, out, trace) {
            Ok(after) => end = after,
            Err(stop) => return Err(stop),
        }
        let Some(next) = code.checked_add(code_count(item)) else {
            // More codes than can be counted have no room in memory.
            return Err(Stop::NoMemory);
        };
        code = next;
    }
    Ok(end)
}
