//! Names as a line.

ghost use Rattle.std.specs.Prelude.{◌≡◌, ◌≤◌, ◌++◌, chars, encode_utf8_all, option_map, string_bytes, IfOk, IfSome, IsUtf8, OnOk, OnErr, IsErrOf, if◌then◌else◌};
ghost use Rattle.apl_outside.specs.Bytes.{Gains};
ghost use Rattle.apl_outside.specs.Faults.{Rose};
ghost use Rattle.apl_print.specs.Bytes.{GainsPrefix};
ghost use Rattle.apl_compile.specs.Running.{function_of, functions_of};
ghost use Rattle.apl_model.specs.Immediate.{in_byte_order};
ghost use Rattle.apl_model.specs.Printed.{blank};
ghost use Rattle.command_steps.specs.Obeyed.{line_of_names};

use apl_base::{Name, NoMemory};
use apl_model::{Outline, OutlineItem};
use apl_outside::{Sink, push_all};
use apl_print::PrintFault;
use std::alloc::Global;

/// Writes names as one line, joined by one blank.
pub(crate) fn write_names<O: Sink>(
    alloc: Global,
    names: &[Name],
    out: &mut O,
) -> Result<(), PrintFault>
    ensures ok { OnOk result (Gains (O.written out.old) (O.written out.new)
        (encode_utf8_all (line_of_names names.now))) }
    ensures err { OnErr result (GainsPrefix (O.written out.old) (O.written out.new)
        (encode_utf8_all (line_of_names names.now))) }
    ensures rose { IsErrOf result PrintFault.OutFault → Rose (O.faults out.old) (O.faults out.new) }
    ensures never_falls { O.faults out.old ≤ O.faults out.new }
{
    let Ok(line) = names_line(alloc, names) else {
        return Err(PrintFault::NoMemory);
    };
    match push_all(out, line.as_bytes()) {
        Ok(()) => Ok(()),
        Err(_) => Err(PrintFault::OutFault),
    }
}

// The line of names.
fn names_line(alloc: Global, names: &[Name]) -> Result<String, NoMemory>
    ensures { IfOk result (λ line. string_bytes line ≡ encode_utf8_all (line_of_names names.now)) }
{
    let mut line = String::new(alloc);
    for at in 0..names.len() {
        add_name(at == 0, &names[at], &mut line)?;
    }
    line.push('\n')?;
    Ok(line)
}

// Appends a name, with a blank before it where it is not the first one.
fn add_name(is_first: bool, name: &Name, line: &mut String) -> Result<(), NoMemory>
    ensures { OnOk result (string_bytes line.new
        ≡ string_bytes line.old ++ encode_utf8_all (if is_first then name.now else blank ++ name.now)) }
{
    if !is_first {
        line.push(' ')?;
    }
    line.push_str(name.as_str())?;
    Ok(())
}

/// The names that head a definition, in the order of their bytes.
pub(crate) fn functions_in_order(alloc: Global, outline: &Outline) -> Result<Vec<Name>, NoMemory>
    ensures { IfOk result (λ names. names.items ≡ in_byte_order (functions_of outline.now)) }
{
    let mut texts = Vec::new(alloc);
    for item in outline.items.as_slice() {
        if let Some(text) = function_in(item) {
            texts.push(text)?;
        }
    }
    texts.sort()?;
    let mut names = Vec::new(alloc);
    for text in texts.as_slice() {
        names.push(Name::of(alloc, text)?)?;
    }
    Ok(names)
}

// The name that an item heads, where it is a definition.
fn function_in(item: &OutlineItem) -> Option<&str>
    ensures names { option_map (λ text. chars text.now) result ≡ function_of item.now }
    ensures utf8 { IfSome result (λ text. IsUtf8 text.now) }
{
    match item {
        OutlineItem::Statement { .. } => None,
        OutlineItem::Command { .. } => None,
        OutlineItem::Definition { header, .. } => Some(header.f.as_str()),
    }
}
