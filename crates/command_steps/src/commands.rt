//! Commands of a script: `)VARS`, `)FNS`, `)ERASE` and `)ORIGIN`.

ghost use Rattle.std.specs.Prelude.{◌≡◌, ◌⊎◌, ◌≤◌, [], pos, OnOk, OnErr, IsErrOf};
ghost use Rattle.apl_outside.specs.Bytes.{Gains};
ghost use Rattle.apl_outside.specs.Faults.{Rose};
ghost use Rattle.apl_print.specs.Bytes.{GainsPrefix};
ghost use Rattle.apl_model.specs.Grammar.{IsCommand};
ghost use Rattle.apl_model.specs.declared.scripts.Command.TheVariants.{Erase, Fns, Origin, Vars};
ghost use Rattle.apl_compile.specs.Running.{functions_of};
ghost use Rattle.machine_state.specs.StandsFor.{IsAtRest};
ghost use Rattle.command_steps.specs.Obeyed.{bytes_of, Obeys};

use crate::lines::{functions_in_order, write_names};
use apl_base::{Cell, Name};
use apl_model::{Command, Outline};
use apl_outside::Sink;
use apl_print::PrintFault;
use machine_state::Machine;

/// Obeys a command between two statements: `)VARS` and `)FNS` print the names that are set and those of the functions, in
/// the order of their bytes; `)ERASE` makes names unset; `)ORIGIN` sets the origin. A fault of the sink or want of memory
/// leaves the machine as it was, and a front of the text printed.
pub fn obey<O: Sink>(
    machine: &mut Machine,
    outline: &Outline,
    command: &Command,
    out: &mut O,
) -> Result<(), PrintFault>
    requires rest { IsAtRest machine.old }
    requires command { IsCommand command.now }
    ensures obeys { OnOk result
        (Obeys (functions_of outline.now) command.now machine.old machine.new) }
    ensures printed { OnOk result (Gains (O.written out.old) (O.written out.new)
        (bytes_of (functions_of outline.now) command.now machine.old)) }
    ensures stopped { OnErr result (GainsPrefix (O.written out.old) (O.written out.new)
        (bytes_of (functions_of outline.now) command.now machine.old)) }
    ensures same { OnErr result (machine.new ≡ machine.old) }
    ensures rose { IsErrOf result PrintFault.OutFault → Rose (O.faults out.old) (O.faults out.new) }
    ensures never_falls { O.faults out.old ≤ O.faults out.new }
{
    match command {
        Command::Vars => print_variables(machine, out),
        Command::Fns => print_functions(machine, outline, out),
        Command::Erase { names } => Ok(erase(machine, names.as_slice())),
        Command::Origin { origin } => Ok(set_origin(machine, *origin)),
    }
}

// The globals that are set are printed, in the order of their bytes.
fn print_variables<O: Sink>(machine: &Machine, out: &mut O) -> Result<(), PrintFault>
    ensures printed { OnOk result (Gains (O.written out.old) (O.written out.new)
        (bytes_of [] Vars machine.now)) }
    ensures stopped { OnErr result (GainsPrefix (O.written out.old) (O.written out.new)
        (bytes_of [] Vars machine.now)) }
    ensures rose { IsErrOf result PrintFault.OutFault → Rose (O.faults out.old) (O.faults out.new) }
    ensures never_falls { O.faults out.old ≤ O.faults out.new }
{
    let alloc = *machine.costs.allocator();
    let Ok(names) = machine.names.set_names() else {
        return Err(PrintFault::NoMemory);
    };
    write_names(alloc, names.as_slice(), out)
}

// The names that head a definition are printed, in the order of their bytes.
fn print_functions<O: Sink>(
    machine: &Machine,
    outline: &Outline,
    out: &mut O,
) -> Result<(), PrintFault>
    ensures printed { OnOk result (Gains (O.written out.old) (O.written out.new)
        (bytes_of (functions_of outline.now) Fns machine.now)) }
    ensures stopped { OnErr result (GainsPrefix (O.written out.old) (O.written out.new)
        (bytes_of (functions_of outline.now) Fns machine.now)) }
    ensures rose { IsErrOf result PrintFault.OutFault → Rose (O.faults out.old) (O.faults out.new) }
    ensures never_falls { O.faults out.old ≤ O.faults out.new }
{
    let alloc = *machine.costs.allocator();
    let Ok(names) = functions_in_order(alloc, outline) else {
        return Err(PrintFault::NoMemory);
    };
    write_names(alloc, names.as_slice(), out)
}

// Names are made unset.
fn erase(machine: &mut Machine, names: &[Name])
    requires rest { IsAtRest machine.old }
    ensures obeys { Obeys [] (Erase names.now) machine.old machine.new }
{
    for name in names {
        machine.names.erase(name, &mut machine.store);
    }
}

// The origin is set.
fn set_origin(machine: &mut Machine, origin: Cell)
    requires rest { IsAtRest machine.old }
    requires origin { (origin ≡ pos 0) ⊎ (origin ≡ pos 1) }
    ensures obeys { Obeys [] (Origin origin) machine.old machine.new }
{
    machine.origin = origin;
}
