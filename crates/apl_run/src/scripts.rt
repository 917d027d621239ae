//! The run of a script: read, compiled and run, or refused.

ghost use Rattle.std.specs.Prelude.{◌≡◌, ◌⊎◌, ◌<◌, ◌≤◌, ℕ, [], List, Option, Some, length, IfOk, IfSome, IsErrOf, IsSome, OnOk};
ghost use Rattle.apl_base.specs.declared.faults.TheConstants.{MOST_BYTES as most};
ghost use Rattle.apl_outside.specs.Faults.{Rose};
ghost use Rattle.apl_model.specs.Mirror.{script_of};
ghost use Rattle.apl_model.specs.Items.{AreLawful};
ghost use Rattle.apl_base.specs.declared.faults.Cause.TheVariants.{TooLong};
ghost use Rattle.apl_model.specs.Refusal.{refusal};
ghost use Rattle.apl_model.specs.Tree.{Script as Tree};
ghost use Rattle.apl_compile.specs.Program.{program_of};
ghost use Rattle.d_machine.specs.Running.{scene};
ghost use Rattle.machine_state.specs.declared.machines.Machine.{Machine as MachineView};
ghost use Rattle.script_run.specs.ProgramRuns.{IsCompiled};
ghost use Rattle.apl_run.specs.Answers.{refused, script_bytes};
ghost use Rattle.apl_run.specs.Endings.{Describes, Ends, IsFresh, RunsBytes, RunsScript};

use crate::descriptions::write_globals;
use crate::statuses::{Status, Which};
use apl_base::{Cause, MOST_BYTES, Refusal};
use apl_compile::{Program, compile_script};
use apl_defn::script_of_bytes;
use apl_model::{ReadFault, Script};
use apl_outside::{ReadEnd, Sink, Source, read_all};
use apl_print::{PrintFault, write_refusal};
use apl_words::workload;
use d_machine::Stop;
use machine_state::Machine;
use script_run::{End, run_program};
use std::alloc::Global;

/// The bytes of the script: the workload of this number, or all that the source has left.
pub(crate) fn script_bytes<S: Source>(
    alloc: Global,
    number: Option<u32>,
    src: &mut S,
) -> Result<Vec<u8>, ReadEnd>
    ensures ok { IfOk result (λ bytes. IfSome (script_bytes number (S.left src.old))
        (λ told. bytes.items ≡ told)) }
    ensures too_long { IsErrOf result ReadEnd.TooLong
        → IfSome (script_bytes number (S.left src.old)) (λ told. most < length told) }
    ensures read { OnOk result (IsSome number
        ⊎ IfSome (S.left src.old) (λ script. S.left src.new ≡ Some [])) }
    ensures workload { IsSome number → src.new ≡ src.old }
    ensures failed { IsErrOf result ReadEnd.Failed → Rose (S.faults src.old) (S.faults src.new) }
    ensures never_falls { S.faults src.old ≤ S.faults src.new }
{
    match number {
        Some(k) => match workload(alloc, k) {
            Ok(text) => Ok(text),
            Err(_) => Err(ReadEnd::NoMemory),
        },
        None => read_all(alloc, src, MOST_BYTES),
    }
}

/// Runs a script of bytes, or prints its first refusal.
pub(crate) fn run_bytes<O: Sink, T: Sink>(
    alloc: Global,
    bytes: &[u8],
    machine: &mut Machine,
    out: &mut O,
    tr: &mut T,
) -> Status
    requires { IsFresh machine.old }
    ensures { RunsBytes bytes.now
        (scene machine.old (O.written out.old) (O.faults out.old) (T.written tr.old) (T.faults tr.old))
        (scene machine.new (O.written out.new) (O.faults out.new) (T.written tr.new) (T.faults tr.new))
        result }
{
    match script_of_bytes(alloc, bytes) {
        Ok(script) => run_script(alloc, script, machine, out, tr),
        Err(ReadFault::Refused { refusal }) => refuse(alloc, refusal, out),
        Err(ReadFault::NoMemory) => Status::NoMemory,
    }
}

// Prints a refusal.
fn refuse<O: Sink>(alloc: Global, refusal: Refusal, out: &mut O) -> Status
    ensures { (machine : MachineView) (trace : Option (List ℕ)) (faults : ℕ) → IsFresh machine
        → Ends (refused refusal)
        (scene machine (O.written out.old) (O.faults out.old) trace faults)
        (scene machine (O.written out.new) (O.faults out.new) trace faults)
        result }
{
    match write_refusal(alloc, &refusal, out) {
        Ok(()) => Status::Refused { refusal },
        Err(PrintFault::OutFault) => Status::WriteFault { which: Which::Out },
        Err(PrintFault::NoMemory) => Status::NoMemory,
    }
}

/// Refuses a script that has too many bytes.
pub(crate) fn refuse_long<O: Sink>(alloc: Global, out: &mut O) -> Status
    ensures { (machine : MachineView) (trace : Option (List ℕ)) (faults : ℕ) → IsFresh machine
        → Ends (refused (refusal TooLong 0 0))
        (scene machine (O.written out.old) (O.faults out.old) trace faults)
        (scene machine (O.written out.new) (O.faults out.new) trace faults)
        result }
{
    let long = Refusal {
        line: 0,
        column: 0,
        cause: Cause::TooLong,
    };
    refuse(alloc, long, out)
}

// Runs an accepted script. Its trees are gone before it is run.
fn run_script<O: Sink, T: Sink>(
    alloc: Global,
    script: Script,
    machine: &mut Machine,
    out: &mut O,
    tr: &mut T,
) -> Status
    requires fresh { IsFresh machine.old }
    requires lawful { AreLawful (script_of script).items }
    ensures { RunsScript (script_of script)
        (scene machine.old (O.written out.old) (O.faults out.old) (T.written tr.old) (T.faults tr.old))
        (scene machine.new (O.written out.new) (O.faults out.new) (T.written tr.new) (T.faults tr.new))
        result }
{
    let Ok(program) = compile_script(alloc, script) else {
        return Status::NoMemory;
    };
    run_compiled(alloc, &program, machine, out, tr)
}

// Runs a program, and describes the globals at its end.
fn run_compiled<O: Sink, T: Sink>(
    alloc: Global,
    program: &Program,
    machine: &mut Machine,
    out: &mut O,
    tr: &mut T,
) -> Status
    requires fresh { IsFresh machine.old }
    requires compiled { IsCompiled program.now }
    ensures { (script : Tree) → program.now ≡ program_of script → RunsScript script
        (scene machine.old (O.written out.old) (O.faults out.old) (T.written tr.old) (T.faults tr.old))
        (scene machine.new (O.written out.new) (O.faults out.new) (T.written tr.new) (T.faults tr.new))
        result }
{
    match run_program(machine, program, out, tr) {
        Ok(End::Done) => describe(alloc, Status::Done, machine, tr),
        Ok(End::Reported) => describe(alloc, Status::Reported, machine, tr),
        Err(Stop::Spent) => describe(alloc, Status::Spent, machine, tr),
        Err(Stop::WsFull { live, asked }) => Status::WsFull { live, asked },
        Err(Stop::NoMemory) => Status::NoMemory,
        Err(Stop::OutFault) => Status::WriteFault { which: Which::Out },
        Err(Stop::TraceFault) => Status::WriteFault {
            which: Which::Trace,
        },
    }
}

// Writes the lines of the globals, where a trace is asked for. The status stays, unless they are not written whole.
fn describe<T: Sink>(alloc: Global, ended: Status, machine: &Machine, tr: &mut T) -> Status
    requires { machine.now.names.frames ≡ [] }
    ensures described { Describes ended machine.now.traced machine.now.names.globals
        (T.written tr.old) (T.written tr.new) (T.faults tr.old) (T.faults tr.new) result }
    ensures never_falls { T.faults tr.old ≤ T.faults tr.new }
{
    if !machine.traced {
        return ended;
    }
    match write_globals(alloc, &machine.names, tr) {
        Ok(()) => ended,
        Err(PrintFault::OutFault) => Status::WriteFault {
            which: Which::Trace,
        },
        Err(PrintFault::NoMemory) => Status::NoMemory,
    }
}
