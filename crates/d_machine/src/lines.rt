//! The lines of a function's body.

ghost use Rattle.std.specs.Prelude.{◌≡◌, ◌+◌, ◌-◌, ◌^◌, ◌≤◌, suc, pos, drop, length, OnOk};
ghost use Rattle.std.specs.Option.{MatchOption};
ghost use Rattle.array_store.specs.Follows.{none};
ghost use Rattle.apl_model.specs.Call.{next_line};
ghost use Rattle.apl_compile.specs.Running.{lines_with};
ghost use Rattle.machine_state.specs.StandsFor.{IsLawfulMachine};
ghost use Rattle.machine_state.specs.Steps.{pending};
ghost use Rattle.calling_steps.specs.Branches.{flow_of};
ghost use Rattle.d_machine.specs.Calling.{IsLineAt, IsNoLine, IsSoundProgram, RunsLines};
ghost use Rattle.d_machine.specs.Running.{scene, AreAllArrays, IsSameCall, UnlessCutOff};

use crate::answers::Stop;
use crate::breaks::Break;
use crate::turns::turn;
use apl_base::Cell;
use apl_compile::Program;
use apl_model::OutlineBody;
use apl_outside::Sink;
use calling_steps::Flow;
use machine_state::Machine;

/// Runs the lines of a body from the first on, each by its code; that of the first line has this number, and those of the
/// others follow. A line says which is next; a number that is no line's ends them.
#[cycle(run)]
pub(crate) fn run_lines<O: Sink, T: Sink>(
    program: &Program,
    body: &[OutlineBody],
    first: usize,
    machine: &mut Machine,
    out: &mut O,
    trace: &mut T,
) -> Result<(), Break>
    requires program { IsSoundProgram program.now }
    requires codes { first + length body.now ≤ length program.now.codes }
    requires below { AreAllArrays (pending machine.old) }
    requires turns { machine.old.begun + machine.old.turns_left ≤ 2 ^ 64 - 1 }
    requires lawful { IsLawfulMachine machine.old none }
    ensures lines { RunsLines program.now (lines_with body.now (drop first program.now.codes))
        (scene machine.old (O.written out.old) (O.faults out.old) (T.written trace.old) (T.faults trace.old))
        (scene machine.new (O.written out.new) (O.faults out.new) (T.written trace.new) (T.faults trace.new))
        result }
    ensures below { OnOk result (pending machine.new ≡ pending machine.old) }
    ensures lawful { UnlessCutOff result (IsLawfulMachine machine.new none) }
    ensures call { OnOk result (IsSameCall machine.old machine.new) }
{
    let mut next = 1;
    while let Some(at) = place_of_line(next, body.len()) {
        let Some(number) = first.checked_add(at) else {
            // More codes than can be numbered have no room.
            return Err(Break::Stop(Stop::NoMemory));
        };
        let Some(code) = program.code(number) else {
            unreachable!()
        };
        let to = turn(program, body[at].line, code, machine, out, trace)?;
        next = number_after(at, to);
    }
    Ok(())
}

// The place among so many lines, from 0, of the line of this number, counted from 1; none where that is no line.
fn place_of_line(number: Cell, count: usize) -> Option<usize>
    ensures { MatchOption result (IsNoLine number count) (IsLineAt number count) }
{
    if number < 1 || number > count as Cell {
        return None;
    }
    Some((number - 1) as usize)
}

// The number of the line that follows the one at this place.
fn number_after(at: usize, to: Flow) -> Cell
    ensures { result ≡ next_line (pos (suc at)) (flow_of to) }
{
    match to {
        Flow::Onwards => at as Cell + 2,
        Flow::Line { number } => number,
    }
}
