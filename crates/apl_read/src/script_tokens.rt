//! From the bytes of a script to its tokens.
ghost use Rattle.std.specs.Prelude.{◌≡◌, ◌≤◌, ℕ, length, IfOk, OnOk, IfErr};
ghost use Rattle.std.specs.List.{IsAmong};
ghost use Rattle.std.specs.Str.Lossy.{utf8_valid_len};
ghost use Rattle.apl_base.specs.declared.faults.Refusal.{Refusal};
ghost use Rattle.apl_model.specs.Lines.{lines_of};
ghost use Rattle.apl_model.specs.Refusal.{IsReadingRefusal};
ghost use Rattle.apl_model.specs.Tokens.{IsRead};
ghost use Rattle.apl_model.specs.declared.tokens.Line.{Line};
ghost use Rattle.apl_model.specs.ReadFaults.{IsRefusedAs, IsRefusedFirst};
ghost use Rattle.apl_read.specs.Refusals.{reading_refusal};

use crate::script_lines::read_bytes;
use apl_model::{Lines, ReadFault};
use sqlite_items::Items;
use std::alloc::Global;

/// The lines of a script, each with its text and its tokens, or the first refusal of its bytes and characters. A
/// script of any length is read; whether it is too long is asked elsewhere.
pub fn tokens(alloc: Global, script: &[u8]) -> Result<Lines, ReadFault>
    ensures lines { IfOk result (λ lines. lines.lines ≡ lines_of script.now) }
    ensures whole { OnOk result (utf8_valid_len script.now ≡ length script.now) }
    ensures short { OnOk result ((l : Line) → IsAmong (lines_of script.now) l
        → length l.text ≤ 1000) }
    ensures read { OnOk result ((l : Line) → IsAmong (lines_of script.now) l
        → IsRead l.text l.tokens) }
    ensures accepted { OnOk result ((r : Refusal) → ¬ (IsReadingRefusal script.now r)) }
    // The refusal is the first one; that memory is wanting has no stated cause.
    ensures refused { IfErr result (λ fault. IsRefusedFirst fault (IsReadingRefusal script.now)) }
    // The same, by the refusal that is computed.
    ensures none { OnOk result (reading_refusal script.now ≡ None) }
    ensures computed { IfErr result (λ fault. IsRefusedAs fault (reading_refusal script.now)) }
{
    let lines = read_bytes(alloc, script)?;
    Ok(Lines {
        lines: Items::from_vec(lines),
    })
}
