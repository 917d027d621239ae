//! The beginning of a call.

ghost use Rattle.std.specs.Prelude.{◌≡◌, ◌<◌, ◌≤◌, length, map, true, IfErr, OnOk};
ghost use Rattle.std.specs.List.{IsDistinct};
ghost use Rattle.apl_model.specs.Environment.{is_same_name, with_frame};
ghost use Rattle.apl_model.specs.Frames.{line_number, unset};
ghost use Rattle.name_table.specs.Laws.{declared_by, with_labels};
ghost use Rattle.pending_steps.specs.Leaves.{IsStopped};
ghost use Rattle.pending_steps.specs.Steps.{OnError};
ghost use Rattle.machine_state.specs.Steps.{pending, IsLawfulBeside, IsSameCount, Keeps};
ghost use Rattle.calling_steps.specs.Calls.{labels_in, most_calls, operands_of, takes_left, takes_right, Enters, IsNotEntered};
ghost use Rattle.calling_steps.specs.Ready.{AreArrays, Changes};

use crate::declaring::declared_names;
use crate::passing::{pass, set_label};
use apl_base::{ErrorKind, NoMemory, Place};
use apl_model::{Header, OutlineBody};
use machine_state::Machine;
use pending_steps::{Halt, settle_entries};

/// So many calls may be pending.
pub const MOST_CALLS: usize = 256;

/// A call begins, whose function has this header and body and which is told so many arguments: 0 none, 1 the right one, 2
/// both, 3 the left one alone. They go from the entries, the left one the newest, and the frame of the call comes: the
/// result and the locals unset, the arguments with their values, each label with the number of its line. Before, every
/// entry that may fail is computed. DEPTH ERROR where 256 calls are pending.
pub fn enter(
    machine: &mut Machine,
    header: &Header,
    body: &[OutlineBody],
    arguments: u8,
    place: Place,
) -> Result<(), Halt>
    requires arguments { arguments ≤ 3 }
    requires operands { operands_of arguments ≤ length machine.old.stack }
    requires lawful { IsLawfulBeside machine.old }
    requires distinct { IsDistinct is_same_name (declared_by header.now (labels_in body.now)) }
    ensures enters { OnOk result
        (Enters machine.old machine.new header.now (labels_in body.now) arguments) }
    ensures pending { OnOk result (length machine.old.names.frames < most_calls) }
    ensures keeps { OnError result (Keeps machine.old machine.new) }
    ensures names { OnError result (machine.new.names ≡ machine.old.names) }
    ensures halted { IfErr result (IsNotEntered machine.old place) }
    ensures run { IsSameCount machine.old machine.new }
{
    let alloc = *machine.costs.allocator();
    settle_entries(alloc, &mut machine.stack, &mut machine.store)?;
    if machine.names.depth() >= MOST_CALLS {
        let kind = ErrorKind::Depth;
        return Err(Halt::Error { kind, place });
    }
    begin(machine, header, body, arguments)
}

// A call begins, where all entries mean arrays.
fn begin(
    machine: &mut Machine,
    header: &Header,
    body: &[OutlineBody],
    arguments: u8,
) -> Result<(), Halt>
    requires arguments { arguments ≤ 3 }
    requires operands { operands_of arguments ≤ length machine.old.stack }
    requires lawful { IsLawfulBeside machine.old }
    requires arrays { AreArrays machine.old }
    requires distinct { IsDistinct is_same_name (declared_by header.now (labels_in body.now)) }
    ensures enters { OnOk result
        (Enters machine.old machine.new header.now (labels_in body.now) arguments) }
    ensures stopped { IfErr result (IsStopped machine.old.store.limit) }
    ensures run { IsSameCount machine.old machine.new }
{
    bind_frame(machine, header, body)?;
    pass(machine, takes_left(arguments), &header.left)?;
    pass(machine, takes_right(arguments), &header.right)?;
    set_labels(machine, body)
}

// Whether a call that is told so many arguments has a left one.
fn takes_left(arguments: u8) -> bool
    ensures { result ≡ takes_left arguments }
{
    match arguments {
        0 | 1 => false,
        _ => true,
    }
}

// Whether it has a right one.
fn takes_right(arguments: u8) -> bool
    ensures { result ≡ takes_right arguments }
{
    match arguments {
        1 | 2 => true,
        _ => false,
    }
}

// The frame of the call comes, with all names unset.
fn bind_frame(machine: &mut Machine, header: &Header, body: &[OutlineBody]) -> Result<(), NoMemory>
    requires distinct { IsDistinct is_same_name (declared_by header.now (labels_in body.now)) }
    ensures bound { OnOk result (Changes machine.old machine.new
        (with_frame (map unset (declared_by header.now (labels_in body.now))))) }
    ensures stack { machine.new.stack ≡ machine.old.stack }
    ensures run { IsSameCount machine.old machine.new }
{
    let alloc = *machine.costs.allocator();
    let declared = declared_names(alloc, header, body)?;
    machine.names.bind(declared.as_slice())
}

// Each label is set to the number of its line.
fn set_labels(machine: &mut Machine, body: &[OutlineBody]) -> Result<(), Halt>
    requires lawful { IsLawfulBeside machine.old }
    ensures labels { OnOk result (Changes machine.old machine.new
        (with_labels line_number 1 (labels_in body.now))) }
    ensures stopped { IfErr result (IsStopped machine.old.store.limit) }
    ensures run { IsSameCount machine.old machine.new }
{
    for at in 0..body.len() {
        set_label(machine, &body[at].label, at as u64 + 1)?;
    }
    Ok(())
}
