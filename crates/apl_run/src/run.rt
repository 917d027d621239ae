//! The top call.

ghost use Rattle.std.specs.Prelude.{◌≡◌, ◌^◌, ◌+◌, ◌<◌, ◌≤◌, ◌⊎◌, ℕ, [], true, length, IfSome, IsSome, None, Some};
ghost use Rattle.apl_base.specs.declared.faults.TheConstants.{MOST_BYTES};
ghost use Rattle.apl_outside.specs.Bytes.{Gains};
ghost use Rattle.apl_outside.specs.Faults.{Rose};
ghost use Rattle.apl_print.specs.Bytes.{GainsPrefix};
ghost use Rattle.d_machine.specs.Answers.{statements_in};
ghost use Rattle.apl_run.specs.Answers.{asks_trace, bytes_of, ended_of, options_in, status_of, variables_of, ForAnswer, HasAnswer, ReadsNothing};
ghost use Rattle.apl_run.specs.Statuses.{HasRead, IsCutShort, IsEnd, IsEndOrWant, IsLasting, IsNotRun, IsUnread};
ghost use Rattle.apl_run.specs.Traces.{IsFront, Traces};
ghost use Rattle.apl_run.specs.Workspaces.{variables_in, IsLawfulWorkspace};

use crate::endings::push_last_line;
use crate::statuses::{Ended, Status, Which, Workspace};
use crate::words::{Run, run_words};
use apl_outside::{Sink, Source};
use machine_state::Machine;
use std::alloc::Global;

/// Runs the script that the source has left, or the workload that the words ask for. `words` are those of the command
/// line, `out` is given what the script prints, and `tr` the trace. What is said of the script holds where the source
/// tells its bytes, and what is said of bytes where the sink tells what is written. The calls of source and sinks are
/// taken to return.
pub fn aplm<S: Source, O: Sink, T: Sink>(
    alloc: Global,
    words: &[String],
    src: &mut S,
    out: &mut O,
    tr: &mut T,
) -> Ended
    // Where a script comes to its end, status, printed bytes, variables and ended statements are those of its answer:
    // of immediate evaluation where it is accepted, and else of its first refusal.
    ensures status { IsEnd result.status → ForAnswer (options_in words.now) (S.left src.old)
        (λ answer. result.status ≡ status_of answer) }
    ensures bytes { IsEnd result.status → ForAnswer (options_in words.now) (S.left src.old)
        (λ answer. Gains (O.written out.old) (O.written out.new) (bytes_of answer)) }
    ensures variables { IsEnd result.status → ForAnswer (options_in words.now) (S.left src.old)
        (λ answer. variables_in result.ws ≡ variables_of answer) }
    ensures costs { IsEnd result.status → asks_trace (options_in words.now) ≡ true
        → ForAnswer (options_in words.now) (S.left src.old)
        (λ answer. statements_in result.costs.items ≡ ended_of answer) }
    ensures answered { IsEnd result.status → HasAnswer (options_in words.now) (S.left src.old) }

    // Where it is cut short, a front of the bytes is printed, and a front of the ended statements is entered.
    ensures prefix { IsCutShort result.status → ForAnswer (options_in words.now) (S.left src.old)
        (λ answer. GainsPrefix (O.written out.old) (O.written out.new) (bytes_of answer)) }
    ensures first_costs { IsCutShort result.status → asks_trace (options_in words.now) ≡ true
        → ForAnswer (options_in words.now) (S.left src.old)
        (λ answer. IsFront (statements_in result.costs.items) (ended_of answer)) }

    // Without a trace no statement is entered. Where nothing was run none is, and no name is set; where nothing was read
    // nothing was printed.
    ensures untraced { asks_trace (options_in words.now) ≡ true ⊎ (result.costs.items ≡ []) }
    ensures not_run { IsNotRun result.status → result.costs.items ≡ [] }
    ensures no_names { IsNotRun result.status → result.ws.names.globals ≡ [] }
    ensures silent { IsUnread result.status → out.new ≡ out.old }

    // When each of the other statuses comes. Want of memory has no stated cause.
    ensures ws_full { (live asked : ℕ) → result.status ≡ Status.WsFull live asked
        → 2 ^ 24 < live + asked }
    ensures out_fault { result.status ≡ Status.WriteFault Which.Out
        → Rose (O.faults out.old) (O.faults out.new) }
    ensures trace_fault { result.status ≡ Status.WriteFault Which.Trace
        → Rose (T.faults tr.old) (T.faults tr.new) × (asks_trace (options_in words.now) ≡ true) }
    ensures read_fault { result.status ≡ Status.ReadFault
        → Rose (S.faults src.old) (S.faults src.new) }
    ensures words { result.status ≡ Status.Words → options_in words.now ≡ None }
    ensures no_words { options_in words.now ≡ None
        → (result.status ≡ Status.Words) ⊎ (result.status ≡ Status.NoMemory) }
    ensures complete { IsSome (options_in words.now)
        → ¬ Rose (S.faults src.old) (S.faults src.new)
        → ¬ Rose (O.faults out.old) (O.faults out.new)
        → ¬ Rose (T.faults tr.old) (T.faults tr.new) → IsEndOrWant result.status }

    // The source was read to its end, or it held too much: a read fault is never taken for the end of the script. For a
    // workload, and where the words are refused, it is not read.
    ensures left { HasRead result.status → ReadsNothing (options_in words.now)
        ⊎ IfSome (S.left src.old) (λ script. (S.left src.new ≡ Some []) ⊎ (MOST_BYTES < length script)) }
    ensures unread { ReadsNothing (options_in words.now) → src.new ≡ src.old }

    // The trace, by the status.
    ensures trace { Traces (asks_trace (options_in words.now)) result
        (T.written tr.old) (T.written tr.new) (Rose (T.faults tr.old) (T.faults tr.new)) }

    // The variables may be asked for where the script came to its end or was not read.
    ensures lawful { IsLasting result.status → IsLawfulWorkspace result.ws }
    ensures src_never_falls { S.faults src.old ≤ S.faults src.new }
    ensures out_never_falls { O.faults out.old ≤ O.faults out.new }
    ensures tr_never_falls { T.faults tr.old ≤ T.faults tr.new }
{
    let Run { status, machine } = run_words(alloc, words, src, out, tr);
    push_last_line(&status, tr);
    let Machine {
        store,
        names,
        origin,
        costs,
        ..
    } = machine;
    Ended {
        status,
        ws: Workspace {
            store,
            names,
            origin,
        },
        costs,
    }
}
