//! The lines of the globals, at the end of the trace.

ghost use Rattle.std.specs.Prelude.{◌≡◌, ◌≤◌, [], IsErrOf, OnErr, OnOk};
ghost use Rattle.apl_outside.specs.Bytes.{Gains};
ghost use Rattle.apl_outside.specs.Faults.{Rose};
ghost use Rattle.apl_print.specs.Bytes.{GainsPrefix};
ghost use Rattle.apl_run.specs.Traces.{line_of_global, lines_of_globals};

use apl_base::Name;
use apl_outside::Sink;
use apl_print::{PrintFault, write_desc};
use name_table::Names;
use std::alloc::Global;

/// Writes a line for each global that is set, in the order of their bytes. It reads no element.
pub(crate) fn write_globals<T: Sink>(
    alloc: Global,
    names: &Names,
    tr: &mut T,
) -> Result<(), PrintFault>
    requires frames { names.now.frames ≡ [] }
    ensures ok { OnOk result (Gains (T.written tr.old) (T.written tr.new)
        (lines_of_globals names.now.globals)) }
    ensures err { OnErr result (GainsPrefix (T.written tr.old) (T.written tr.new)
        (lines_of_globals names.now.globals)) }
    ensures rose { IsErrOf result PrintFault.OutFault → Rose (T.faults tr.old) (T.faults tr.new) }
    ensures never_falls { T.faults tr.old ≤ T.faults tr.new }
{
    let Ok(set) = names.set_names() else {
        return Err(PrintFault::NoMemory);
    };
    for name in set.as_slice() {
        if let Err(fault) = write_global(alloc, name, names, tr) {
            return Err(fault);
        }
    }
    Ok(())
}

// Writes the line of a global, where it is set.
fn write_global<T: Sink>(
    alloc: Global,
    name: &Name,
    names: &Names,
    tr: &mut T,
) -> Result<(), PrintFault>
    requires frames { names.now.frames ≡ [] }
    ensures ok { OnOk result (Gains (T.written tr.old) (T.written tr.new)
        (line_of_global names.now.globals name.now)) }
    ensures err { OnErr result (GainsPrefix (T.written tr.old) (T.written tr.new)
        (line_of_global names.now.globals name.now)) }
    ensures rose { IsErrOf result PrintFault.OutFault → Rose (T.faults tr.old) (T.faults tr.new) }
    ensures never_falls { T.faults tr.old ≤ T.faults tr.new }
{
    match names.get(name) {
        Some(leaf) => write_desc(alloc, name, leaf, tr),
        None => Ok(()),
    }
}
