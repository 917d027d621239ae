//! Outputs.

ghost use Rattle.std.specs.Prelude.{◌≡◌, ◌<◌, ◌≤◌, length, IsErrOf, IfErr, OnErr, OnOk};
ghost use Rattle.apl_outside.specs.Faults.{Rose};
ghost use Rattle.machine_state.specs.Steps.{pending, IsLawfulBeside, IsSameRun, Keeps};
ghost use Rattle.calling_steps.specs.Outputs.{IsNotOutput, Prints, PrintsFront, Shows};
ghost use Rattle.calling_steps.specs.Ready.{AreArrays, IsComputed};

use crate::ready::{compute_newest, newest_leaf};
use apl_outside::Sink;
use apl_print::{PrintFault, write_leaf};
use machine_state::Machine;
use pending_steps::{Halt, drop_newest};

/// Why an output is not whole: the machine halts, or the sink failed.
#[derive(Clone, Copy, Debug, PartialEq, Eq)]
pub enum OutputHalt {
    Halted { halt: Halt },
    OutFault,
}

/// The array of the newest entry is printed, and stays. Before, every entry that may fail is computed.
pub fn show<O: Sink>(machine: &mut Machine, out: &mut O) -> Result<(), OutputHalt>
    requires operand { 0 < length machine.old.stack }
    requires lawful { IsLawfulBeside machine.old }
    ensures shows { OnOk result (Shows (pending machine.old) (pending machine.new)
        (O.written out.old) (O.written out.new)) }
    ensures keeps { Keeps machine.old machine.new }
    ensures halted { IfErr result (IsNotOutput machine.old.store.limit (pending machine.old)
        (O.written out.old) (O.written out.new)) }
    ensures count { length machine.new.stack ≡ length machine.old.stack }
    ensures run { IsSameRun machine.old machine.new }
    ensures rose { IsErrOf result OutputHalt.OutFault → Rose (O.faults out.old) (O.faults out.new) }
    ensures never_falls { O.faults out.old ≤ O.faults out.new }
{
    match compute_newest(machine) {
        Ok(()) => show_newest(machine, out),
        Err(halt) => Err(OutputHalt::Halted { halt }),
    }
}

// The array of the newest entry, which is computed, is printed, and stays.
fn show_newest<O: Sink>(machine: &mut Machine, out: &mut O) -> Result<(), OutputHalt>
    requires operand { 0 < length machine.old.stack }
    requires lawful { IsLawfulBeside machine.old }
    requires arrays { AreArrays machine.old }
    requires computed { IsComputed machine.old.stack }
    ensures shows { OnOk result (Shows (pending machine.old) (pending machine.new)
        (O.written out.old) (O.written out.new)) }
    ensures keeps { Keeps machine.old machine.new }
    ensures halted { IfErr result (IsNotOutput machine.old.store.limit (pending machine.old)
        (O.written out.old) (O.written out.new)) }
    ensures count { length machine.new.stack ≡ length machine.old.stack }
    ensures run { IsSameRun machine.old machine.new }
    ensures rose { IsErrOf result OutputHalt.OutFault → Rose (O.faults out.old) (O.faults out.new) }
    ensures never_falls { O.faults out.old ≤ O.faults out.new }
{
    let alloc = *machine.costs.allocator();
    let leaf = newest_leaf(&machine.stack);
    match write_leaf(alloc, leaf, &mut machine.store, out) {
        Ok(()) => Ok(()),
        Err(PrintFault::OutFault) => Err(OutputHalt::OutFault),
        Err(PrintFault::NoMemory) => Err(OutputHalt::Halted {
            halt: Halt::NoMemory,
        }),
    }
}

/// The array of the newest entry is printed, and the entry goes. Before, every entry that may fail is computed.
pub fn print<O: Sink>(machine: &mut Machine, out: &mut O) -> Result<(), OutputHalt>
    requires operand { 0 < length machine.old.stack }
    requires lawful { IsLawfulBeside machine.old }
    ensures prints { OnOk result (Prints (pending machine.old) (pending machine.new)
        (O.written out.old) (O.written out.new)) }
    ensures keeps { Keeps machine.old machine.new }
    ensures halted { IfErr result (IsNotOutput machine.old.store.limit (pending machine.old)
        (O.written out.old) (O.written out.new)) }
    ensures run { IsSameRun machine.old machine.new }
    ensures rose { IsErrOf result OutputHalt.OutFault → Rose (O.faults out.old) (O.faults out.new) }
    ensures never_falls { O.faults out.old ≤ O.faults out.new }
{
    show(machine, out)?;
    drop_newest(&mut machine.stack, &mut machine.store);
    Ok(())
}
