//! How texts go out.

ghost use Rattle.std.specs.Prelude.{◌≡◌, ◌≤◌, [], OnOk, OnErr, IsOkUnless, string_bytes};
ghost use Rattle.apl_outside.specs.Bytes.{Gains};
ghost use Rattle.apl_outside.specs.Faults.{Rose};
ghost use Rattle.apl_print.specs.Bytes.{GainsPrefix, Passes};

use crate::faults::PrintFault;
use apl_outside::{Sink, push_all};

/// Gives the sink a text.
pub(crate) fn send<O: Sink>(text: &str, out: &mut O) -> Result<(), PrintFault>
    ensures ok { OnOk result (Gains (O.written out.old) (O.written out.new) text.now) }
    ensures err { OnErr result (GainsPrefix (O.written out.old) (O.written out.new) text.now) }
    ensures only_out { IsOkUnless result PrintFault.OutFault }
    ensures rose { OnErr result (Rose (O.faults out.old) (O.faults out.new)) }
    ensures never_falls { O.faults out.old ≤ O.faults out.new }
{
    match push_all(out, text.as_bytes()) {
        Ok(()) => Ok(()),
        Err(_) => Err(PrintFault::OutFault),
    }
}

/// The bytes that are gathered before they go out.
const PIECE: usize = 8192;

/// Gives the sink a text that makes a piece, and empties it. A shorter one stays.
pub(crate) fn send_full<O: Sink>(text: &mut String, out: &mut O) -> Result<(), PrintFault>
    ensures ok { OnOk result (Passes (O.written out.old) (O.written out.new)
        (string_bytes text.old) (string_bytes text.new)) }
    ensures err { OnErr result
        (GainsPrefix (O.written out.old) (O.written out.new) (string_bytes text.old)) }
    ensures only_out { IsOkUnless result PrintFault.OutFault }
    ensures rose { OnErr result (Rose (O.faults out.old) (O.faults out.new)) }
    ensures never_falls { O.faults out.old ≤ O.faults out.new }
{
    if text.len() < PIECE {
        return Ok(());
    }
    send(text.as_str(), out)?;
    text.clear();
    Ok(())
}
