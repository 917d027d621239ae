//! The trace.

ghost use Rattle.std.specs.Prelude.{◌≡◌, ◌-◌, ◌^◌, ◌≤◌, min, false, IsErrOf, IsOk, IsTrue, OnErr, OnOk};
ghost use Rattle.apl_outside.specs.Bytes.{Gains};
ghost use Rattle.apl_outside.specs.Faults.{Rose};
ghost use Rattle.calling_steps.specs.Traces.{operations, IsNotTold, TracesEnd};

use apl_outside::Sink;
use apl_print::{Cost, PrintFault, write_cost};
use machine_state::Machine;

/// The elements that were fetched and made and the functions that were applied so far, or the end of the type.
pub fn operations(machine: &Machine) -> u64
    ensures { result ≡ min (operations machine.now) (2 ^ 64 - 1) }
{
    let counts = machine.store.counts();
    counts
        .fetched
        .saturating_add(counts.made)
        .saturating_add(counts.applied)
}

/// A statement ended: where a trace is wanted, what it took is entered, and its line goes out.
pub fn end_statement<T: Sink>(
    machine: &mut Machine,
    cost: Cost,
    trace: &mut T,
) -> Result<(), PrintFault>
    ensures told { IsTrue machine.old.traced → OnOk result
        (TracesEnd Gains machine.old machine.new (T.written trace.old) (T.written trace.new) cost) }
    ensures not_told { OnErr result
        (IsNotTold machine.old machine.new (T.written trace.old) (T.written trace.new) cost) }
    ensures rest { machine.new ≡ record machine.old { costs = machine.new.costs } }
    ensures untraced { machine.old.traced ≡ false → machine.new ≡ machine.old }
    ensures unwritten { machine.old.traced ≡ false → trace.new ≡ trace.old }
    ensures untraced_ends { machine.old.traced ≡ false → IsOk result }
    ensures rose { IsErrOf result PrintFault.OutFault
        → Rose (T.faults trace.old) (T.faults trace.new) }
    ensures never_falls { T.faults trace.old ≤ T.faults trace.new }
{
    if !machine.traced {
        return Ok(());
    }
    let alloc = *machine.costs.allocator();
    let Ok(()) = machine.costs.push(cost) else {
        return Err(PrintFault::NoMemory);
    };
    write_cost(alloc, &cost, trace)
}
