//! The script that lines or bytes are, or its first refusal.
ghost use Rattle.std.specs.Prelude.{map, IfOk};
ghost use Rattle.apl_model.specs.Mirror.{item_of, script_of};
ghost use Rattle.apl_model.specs.Refusal.{IsAccepted, IsFirst, IsLineRefusal, IsRefusal};
ghost use Rattle.apl_model.specs.ReadFaults.{IfRefused};
ghost use Rattle.apl_defn.specs.Reading.{AreReadLines, AreAccepted};

use crate::classes::classes_from;
use crate::copies::copy_lines;
use crate::forms::read_forms;
use crate::uses::read_uses;
use apl_base::{Cause, MOST_BYTES, Refusal};
use apl_model::{Line, Lines, ReadFault, Script, ScriptItem};
use apl_read::tokens;
use apl_tree::Lookup;
use sqlite_items::Items;
use std::alloc::Global;
use std::collections::VecDeque;

/// The items of the script that lines are, or the first refusal of their definitions, names and statements.
fn read_items(alloc: Global, given: &[Line]) -> Result<Items<ScriptItem>, ReadFault>
    requires { AreReadLines given.now }
    ensures accepted { IfOk result (λ items. AreAccepted given.now
        (record { lines = given.now; items = map item_of items })) }
    ensures refused { IfRefused result (IsFirst (IsLineRefusal given.now)) }
{
    let forms = read_forms(alloc, given)?;
    if let Some(refusal) = forms.earliest {
        return Err(ReadFault::Refused { refusal });
    }
    let lookup = Lookup::of(alloc, classes_from(alloc, forms.headers.as_slice())?)?;
    let uses = read_uses(alloc, given, VecDeque::from_vec(forms.headers), &lookup)?;
    if let Some(refusal) = uses.earliest {
        return Err(ReadFault::Refused { refusal });
    }
    Ok(Items::from_vec(uses.items))
}

/// The script that lines are: its statements, commands and definitions, or the first refusal of their definitions,
/// names and statements. Want of memory is the one free answer.
pub fn script(alloc: Global, lines: &Lines) -> Result<Script, ReadFault>
    requires { AreReadLines lines.now.lines }
    ensures accepted { IfOk result (λ s. AreAccepted lines.now.lines (script_of s)) }
    ensures refused { IfRefused result (IsFirst (IsLineRefusal lines.now.lines)) }
{
    let given = lines.lines.as_slice();
    let items = read_items(alloc, given)?;
    let lines = Items::from_vec(copy_lines(alloc, given)?);
    Ok(Script { lines, items })
}

/// The script that bytes are, or the first of all their refusals: that they are too long, that they or their
/// characters can't be read, or one of their lines.
pub fn script_of_bytes(alloc: Global, bytes: &[u8]) -> Result<Script, ReadFault>
    ensures accepted { IfOk result (λ s. IsAccepted bytes.now (script_of s)) }
    ensures refused { IfRefused result (IsFirst (IsRefusal bytes.now)) }
{
    if bytes.len() > MOST_BYTES {
        return Err(ReadFault::Refused {
            refusal: Refusal {
                line: 0,
                column: 0,
                cause: Cause::TooLong,
            },
        });
    }
    let Lines { lines } = tokens(alloc, bytes)?;
    let items = read_items(alloc, lines.as_slice())?;
    Ok(Script { lines, items })
}
