//! The words, and the run that they ask for.

ghost use Rattle.std.specs.Prelude.{◌≡◌, ◌⊎◌, ◌<◌, ◌≤◌, [], length, IfSome, IsSome, None, Some};
ghost use Rattle.apl_base.specs.declared.faults.TheConstants.{MOST_BYTES as most};
ghost use Rattle.apl_outside.specs.Faults.{Rose};
ghost use Rattle.d_machine.specs.Running.{scene};
ghost use Rattle.machine_state.specs.declared.machines.Machine.{Machine as MachineView};
ghost use Rattle.apl_run.specs.Answers.{options_in, ReadsNothing};
ghost use Rattle.apl_run.specs.Endings.{IsFresh, RunsOptions, RunsWords};
ghost use Rattle.apl_run.specs.Statuses.{HasRead as IsRead, IsUnread};

use crate::scripts::{refuse_long, run_bytes, script_bytes};
use crate::statuses::Status;
use apl_outside::{ReadEnd, Sink, Source};
use apl_words::{WordsFault, read_words};
use machine_state::Machine;
use std::alloc::Global;

/// The cells for which a store has room.
const CELLS: u64 = 1 << 24;

/// A run that ended, and the machine that it left.
#[derive(Drop)]
pub(crate) struct Run {
    pub(crate) status: Status,
    pub(crate) machine: Machine,
}

/// Runs what the words ask for, or says why not.
pub(crate) fn run_words<S: Source, O: Sink, T: Sink>(
    alloc: Global,
    words: &[String],
    src: &mut S,
    out: &mut O,
    tr: &mut T,
) -> Run
    ensures runs { (start : MachineView) × RunsWords (options_in words.now) (S.left src.old)
        (scene start (O.written out.old) (O.faults out.old) (T.written tr.old) (T.faults tr.old))
        (scene result.machine (O.written out.new) (O.faults out.new) (T.written tr.new) (T.faults tr.new))
        result.status }
    ensures words { result.status ≡ Status.Words → options_in words.now ≡ None }
    ensures no_words { options_in words.now ≡ None
        → (result.status ≡ Status.Words) ⊎ (result.status ≡ Status.NoMemory) }
    ensures silent { IsUnread result.status → out.new ≡ out.old }
    ensures read_fault { result.status ≡ Status.ReadFault
        → Rose (S.faults src.old) (S.faults src.new) }
    ensures left { IsRead result.status → ReadsNothing (options_in words.now)
        ⊎ IfSome (S.left src.old) (λ script. (S.left src.new ≡ Some []) ⊎ (most < length script)) }
    ensures unread { ReadsNothing (options_in words.now) → src.new ≡ src.old }
    ensures never_falls { S.faults src.old ≤ S.faults src.new }
{
    match read_words(alloc, words) {
        Ok(options) => {
            let mut machine = Machine::new(alloc, CELLS, options.turns, options.traced);
            let status = run_options(alloc, options.workload, &mut machine, src, out, tr);
            Run { status, machine }
        }
        Err(WordsFault::Refused) => Run {
            status: Status::Words,
            machine: Machine::new(alloc, CELLS, 0, false),
        },
        Err(WordsFault::NoMemory) => Run {
            status: Status::NoMemory,
            machine: Machine::new(alloc, CELLS, 0, false),
        },
    }
}

// Runs the workload of a number, or the script that the source has left.
fn run_options<S: Source, O: Sink, T: Sink>(
    alloc: Global,
    number: Option<u32>,
    machine: &mut Machine,
    src: &mut S,
    out: &mut O,
    tr: &mut T,
) -> Status
    requires { IsFresh machine.old }
    ensures runs { RunsOptions number (S.left src.old)
        (scene machine.old (O.written out.old) (O.faults out.old) (T.written tr.old) (T.faults tr.old))
        (scene machine.new (O.written out.new) (O.faults out.new) (T.written tr.new) (T.faults tr.new))
        result }
    ensures silent { result ≡ Status.ReadFault → out.new ≡ out.old }
    ensures read_fault { result ≡ Status.ReadFault → Rose (S.faults src.old) (S.faults src.new) }
    ensures left { IsRead result → IsSome number
        ⊎ IfSome (S.left src.old) (λ script. (S.left src.new ≡ Some []) ⊎ (most < length script)) }
    ensures workload { IsSome number → src.new ≡ src.old }
    ensures never_falls { S.faults src.old ≤ S.faults src.new }
{
    match script_bytes(alloc, number, src) {
        Ok(bytes) => run_bytes(alloc, bytes.as_slice(), machine, out, tr),
        Err(ReadEnd::TooLong) => refuse_long(alloc, out),
        Err(ReadEnd::Failed) => Status::ReadFault,
        Err(ReadEnd::NoMemory) => Status::NoMemory,
    }
}
