//! The run of an item of a program.

ghost use Rattle.std.specs.Prelude.{◌≡◌, ℕ, List, Option};
ghost use Rattle.apl_model.specs.Grammar.{IsCommand};
ghost use Rattle.apl_compile.specs.Tables.{codes_at};
ghost use Rattle.machine_state.specs.StandsFor.{IsAtRest};
ghost use Rattle.d_machine.specs.Running.{scene};
ghost use Rattle.standing.specs.Statements.{HasStatementAt};
ghost use Rattle.script_run.specs.ProgramRuns.{HasItemAt, RunsCommand, RunsItem, RunsLine, stop_of};

use crate::ends::End;
use apl_compile::Program;
use apl_model::{Command, OutlineItem};
use apl_outside::Sink;
use apl_print::{PrintFault, write_report};
use command_steps::obey;
use d_machine::{Step, Stop, run_statement};
use machine_state::Machine;

/// How many codes an item has: a statement one, a definition one for each line of its body.
pub(crate) fn code_count(item: &OutlineItem) -> usize
    ensures { result ≡ codes_at item.now }
{
    match item {
        OutlineItem::Statement { .. } => 1,
        OutlineItem::Command { .. } => 0,
        OutlineItem::Definition { body, .. } => body.len(),
    }
}

/// Runs an item, before whose codes so many others stand: a statement, whose error is reported, or a command. A definition
/// does nothing where it stands. It says whether an error was reported, where `before` says so of the items before.
pub(crate) fn run_item<O: Sink, T: Sink>(
    machine: &mut Machine,
    program: &Program,
    item: &OutlineItem,
    code: usize,
    before: End,
    out: &mut O,
    trace: &mut T,
) -> Result<End, Stop>
    requires item { HasItemAt program.now code item.now }
    requires rest { IsAtRest machine.old }
    ensures { RunsItem program.now code item.now before
        (scene machine.old (O.written out.old) (O.faults out.old) (T.written trace.old) (T.faults trace.old))
        (scene machine.new (O.written out.new) (O.faults out.new) (T.written trace.new) (T.faults trace.new))
        result }
{
    match item {
        OutlineItem::Statement { .. } => run_line(machine, program, code, before, out, trace),
        OutlineItem::Command { command, .. } => run_command(machine, program, command, before, out),
        OutlineItem::Definition { .. } => Ok(before),
    }
}

// Runs a statement by its number, and writes its report where an error ends it.
fn run_line<O: Sink, T: Sink>(
    machine: &mut Machine,
    program: &Program,
    at: usize,
    before: End,
    out: &mut O,
    trace: &mut T,
) -> Result<End, Stop>
    requires statement { HasStatementAt program.now at }
    requires rest { IsAtRest machine.old }
    ensures { RunsLine program.now at before
        (scene machine.old (O.written out.old) (O.faults out.old) (T.written trace.old) (T.faults trace.old))
        (scene machine.new (O.written out.new) (O.faults out.new) (T.written trace.new) (T.faults trace.new))
        result }
{
    match run_statement(machine, program, at, out, trace) {
        Ok(Step::Done) => Ok(before),
        Ok(Step::Error { kind, place }) => {
            let alloc = *machine.costs.allocator();
            match write_report(alloc, kind, place, program, out) {
                Ok(()) => Ok(End::Reported),
                Err(fault) => Err(stop_of(fault)),
            }
        }
        Err(stop) => Err(stop),
    }
}

// Obeys a command.
fn run_command<O: Sink>(
    machine: &mut Machine,
    program: &Program,
    command: &Command,
    before: End,
    out: &mut O,
) -> Result<End, Stop>
    requires command { IsCommand command.now }
    requires rest { IsAtRest machine.old }
    ensures { (trace : Option (List ℕ)) (trace_faults : ℕ)
        → RunsCommand program.now command.now before
        (scene machine.old (O.written out.old) (O.faults out.old) trace trace_faults)
        (scene machine.new (O.written out.new) (O.faults out.new) trace trace_faults)
        result }
{
    match obey(machine, program.outline(), command, out) {
        Ok(()) => Ok(before),
        Err(fault) => Err(stop_of(fault)),
    }
}

// The stop that a fault of what is printed is.
fn stop_of(fault: PrintFault) -> Stop
    ensures { result ≡ stop_of fault }
{
    match fault {
        PrintFault::OutFault => Stop::OutFault,
        PrintFault::NoMemory => Stop::NoMemory,
    }
}
