//! The last line of the trace. It takes no memory, and where it can't be written the status stays.

ghost use Rattle.std.specs.Prelude.{◌≡◌, ◌≤◌, ◌++◌, [], OnErr, OnOk};
ghost use Rattle.apl_outside.specs.Bytes.{Gains};
ghost use Rattle.apl_outside.specs.Faults.{Rose};
ghost use Rattle.apl_print.specs.Bytes.{GainsPrefix};
ghost use Rattle.apl_run.specs.Statuses.{full_line, last_line, line_end};
ghost use Rattle.apl_run.specs.Traces.{GainsLast};

use crate::statuses::Status;
use apl_outside::{Failed, Sink, push_all};
use itoa::Buffer;

/// Writes the last line of the trace, if the status has one, or a front of it where the sink fails.
pub(crate) fn push_last_line<T: Sink>(status: &Status, tr: &mut T)
    ensures line { GainsLast (last_line status.now) (Rose (T.faults tr.old) (T.faults tr.new))
        (T.written tr.old) (T.written tr.new) }
    ensures never_falls { T.faults tr.old ≤ T.faults tr.new }
{
    match status {
        Status::Spent => push_line("TURNS SPENT\n", tr),
        Status::WsFull { live, asked } => push_full(*live, *asked, tr),
        Status::NoMemory => push_line("NO MEMORY\n", tr),
        Status::ReadFault => push_line("READ FAULT\n", tr),
        Status::Words => push_line("WORDS REFUSED\n", tr),
        Status::Done => (),
        Status::Reported => (),
        Status::Refused { .. } => (),
        Status::WriteFault { .. } => (),
    }
}

// Writes a line, or a front of it where the sink fails.
fn push_line<T: Sink>(line: &str, tr: &mut T)
    ensures line { GainsLast line.now (Rose (T.faults tr.old) (T.faults tr.new))
        (T.written tr.old) (T.written tr.new) }
    ensures never_falls { T.faults tr.old ≤ T.faults tr.new }
{
    let _ = push_all(tr, line.as_bytes());
}

// Writes the line of a store without room, or a front of it where the sink fails.
fn push_full<T: Sink>(live: u64, asked: u64, tr: &mut T)
    ensures line { GainsLast (full_line live asked) (Rose (T.faults tr.old) (T.faults tr.new))
        (T.written tr.old) (T.written tr.new) }
    ensures never_falls { T.faults tr.old ≤ T.faults tr.new }
{
    let _ = push_numbers(live, asked, tr);
}

// Writes the line of a store without room, number by number.
fn push_numbers<T: Sink>(live: u64, asked: u64, tr: &mut T) -> Result<(), Failed>
    ensures ok { OnOk result (Gains (T.written tr.old) (T.written tr.new) (full_line live asked)) }
    ensures err { OnErr result
        (GainsPrefix (T.written tr.old) (T.written tr.new) (full_line live asked)) }
    ensures rose { OnErr result (Rose (T.faults tr.old) (T.faults tr.new)) }
    ensures never_falls { T.faults tr.old ≤ T.faults tr.new }
{
    let mut digits = Buffer::new();
    match push_two("WS FULL ", digits.format(live), tr) {
        Ok(()) => push_asked(asked, tr),
        Err(failed) => Err(failed),
    }
}

// Writes its second number, and ends it.
fn push_asked<T: Sink>(asked: u64, tr: &mut T) -> Result<(), Failed>
    ensures ok { OnOk result (Gains (T.written tr.old) (T.written tr.new) (line_end asked)) }
    ensures err { OnErr result
        (GainsPrefix (T.written tr.old) (T.written tr.new) (line_end asked)) }
    ensures rose { OnErr result (Rose (T.faults tr.old) (T.faults tr.new)) }
    ensures never_falls { T.faults tr.old ≤ T.faults tr.new }
{
    let mut digits = Buffer::new();
    match push_two(" ", digits.format(asked), tr) {
        Ok(()) => push_all(tr, b"\n"),
        Err(failed) => Err(failed),
    }
}

// Writes two texts, one after the other.
fn push_two<T: Sink>(first: &str, second: &str, tr: &mut T) -> Result<(), Failed>
    ensures ok { OnOk result
        (Gains (T.written tr.old) (T.written tr.new) (first.now ++ second.now)) }
    ensures err { OnErr result
        (GainsPrefix (T.written tr.old) (T.written tr.new) (first.now ++ second.now)) }
    ensures rose { OnErr result (Rose (T.faults tr.old) (T.faults tr.new)) }
    ensures never_falls { T.faults tr.old ≤ T.faults tr.new }
{
    match push_all(tr, first.as_bytes()) {
        Ok(()) => push_all(tr, second.as_bytes()),
        Err(failed) => Err(failed),
    }
}
