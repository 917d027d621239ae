//! Turns: a statement begins, is run by its code, and ends.

ghost use Rattle.std.specs.Prelude.{◌≡◌, ◌+◌, ◌-◌, ◌^◌, ◌≤◌, ℕ, List, Option, length, sum_by, IfErr, IfSome, IsTrue, OnOk};
ghost use Rattle.array_store.specs.Follows.{none};
ghost use Rattle.machine_state.specs.StandsFor.{IsLawfulMachine};
ghost use Rattle.machine_state.specs.Steps.{pending};
ghost use Rattle.entry_steps.specs.Sound.{IsSoundCode};
ghost use Rattle.d_machine.specs.Calling.{IsSoundProgram};
ghost use Rattle.d_machine.specs.Running.{scene, AreAllArrays, AreSameTurns, EndIsCutOff, EntersEnd, Stays, TakesTurn, TellsSince, UnlessCutOff};

use crate::answers::Stop;
use crate::breaks::Break;
use crate::running::run_code;
use apl_compile::{Code, Program};
use apl_outside::Sink;
use apl_print::{Cost, PrintFault};
use calling_steps::{Flow, end_statement, operations};
use machine_state::Machine;

/// A statement that stands on a line takes a turn, where one is left, and is run by its code; and its end is entered.
#[cycle(run)]
pub(crate) fn turn<O: Sink, T: Sink>(
    program: &Program,
    line: u32,
    code: &Code,
    machine: &mut Machine,
    out: &mut O,
    trace: &mut T,
) -> Result<Flow, Break>
    requires program { IsSoundProgram program.now }
    requires code { IsSoundCode code.now.instructions }
    requires below { AreAllArrays (pending machine.old) }
    requires turns { machine.old.begun + machine.old.turns_left ≤ 2 ^ 64 - 1 }
    requires lawful { IsLawfulMachine machine.old none }
    ensures takes { TakesTurn program.now line code.now.instructions
        (scene machine.old (O.written out.old) (O.faults out.old) (T.written trace.old) (T.faults trace.old))
        (scene machine.new (O.written out.new) (O.faults out.new) (T.written trace.new) (T.faults trace.new))
        result }
    ensures below { OnOk result (pending machine.new ≡ pending machine.old) }
    ensures lawful { UnlessCutOff result (IsLawfulMachine machine.new none) }
    ensures turns { UnlessCutOff result (AreSameTurns machine.old machine.new) }
    ensures depth { OnOk result
        (length machine.new.names.frames ≡ length machine.old.names.frames) }
{
    if machine.turns_left == 0 {
        return Err(Break::Stop(Stop::Spent));
    }
    machine.turns_left -= 1;
    machine.begun += 1;
    let begin = Begin {
        line,
        number: machine.begun,
        operations: operations(machine),
        entries: machine.costs.len(),
    };
    match run_code(program, code, machine, out, trace) {
        Ok(to) => match end(begin, machine, trace) {
            Ok(()) => Ok(to),
            Err(stop) => Err(Break::Stop(stop)),
        },
        Err(Break::Error { kind, place }) => match end(begin, machine, trace) {
            Ok(()) => Err(Break::Error { kind, place }),
            Err(stop) => Err(Break::Stop(stop)),
        },
        Err(Break::Stop(stop)) => Err(Break::Stop(stop)),
    }
}

// Where a statement began: its line, its number among the statements begun, and what was counted and entered before.
#[derive(Clone, Copy)]
struct Begin {
    line: u32,
    number: u64,
    operations: u64,
    entries: usize,
}

// The end of a statement is entered, where a trace is wanted.
fn end<T: Sink>(begin: Begin, machine: &mut Machine, trace: &mut T) -> Result<(), Stop>
    requires entries { IsTrue machine.old.traced → begin.entries ≤ length machine.old.costs.items }
    ensures ended { OnOk result ((out : Option (List ℕ)) (faults : ℕ) → EntersEnd begin
        (scene machine.old out faults (T.written trace.old) (T.faults trace.old))
        (scene machine.new out faults (T.written trace.new) (T.faults trace.new))) }
    ensures cut { IfErr result (λ why. (out : Option (List ℕ)) (faults : ℕ) → EndIsCutOff begin
        (scene machine.old out faults (T.written trace.old) (T.faults trace.old))
        (scene machine.new out faults (T.written trace.new) (T.faults trace.new)) why) }
    ensures stays { (out : Option (List ℕ)) (faults : ℕ) → Stays
        (scene machine.old out faults (T.written trace.old) (T.faults trace.old))
        (scene machine.new out faults (T.written trace.new) (T.faults trace.new)) }
    ensures operations { IsTrue machine.old.traced
        → OnOk result ((out : Option (List ℕ)) (faults : ℕ) → TellsSince begin
        (scene machine.new out faults (T.written trace.new) (T.faults trace.new))) }
    ensures machine { machine.new ≡ record machine.old { costs = machine.new.costs } }
{
    if !machine.traced {
        return Ok(());
    }
    let entered = &machine.costs.as_slice()[begin.entries..];
    let Some(ops) = own_operations(begin.operations, operations(machine), entered) else {
        return Err(Stop::NoMemory);
    };
    let cost = Cost {
        line: begin.line,
        begun: begin.number,
        ops,
    };
    match end_statement(machine, cost, trace) {
        Ok(()) => Ok(()),
        Err(PrintFault::OutFault) => Err(Stop::TraceFault),
        Err(PrintFault::NoMemory) => Err(Stop::NoMemory),
    }
}

// The operations of a statement itself, of those that were counted while it ran: but for those of the statements that
// ended meanwhile. None where the counts fell, which no step lets them do.
fn own_operations(before: u64, now: u64, entered: &[Cost]) -> Option<u64>
    ensures { IfSome result (λ own. now ≡ before + sum_by (λ c. c.ops) entered.now + own) }
{
    let mut own = now.checked_sub(before)?;
    for cost in entered {
        own = own.checked_sub(cost.ops)?;
    }
    Some(own)
}
