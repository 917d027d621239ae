//! The report of an error.

ghost use Rattle.std.specs.Prelude.{◌≡◌, ◌≤◌, ◌+◌, ◌-◌, ◌++◌, suc, length, replicate, codes, encode_utf8_all, string_bytes, IfOk, IsErrOf, OnOk, OnErr};
ghost use Rattle.std.specs.Str.{chars};
ghost use Rattle.apl_outside.specs.Bytes.{Gains};
ghost use Rattle.apl_outside.specs.Faults.{Rose};
ghost use Rattle.apl_model.specs.Tree.{Script};
ghost use Rattle.apl_model.specs.Immediate.{report};
ghost use Rattle.apl_model.specs.Printed.{body_prefix, error_name, plain_prefix};
ghost use Rattle.apl_compile.specs.Program.{program_of};
ghost use Rattle.apl_compile.specs.Running.{prefix_from, report_in};
ghost use Rattle.apl_print.specs.Bytes.{GainsPrefix};
ghost use Rattle.apl_print.specs.Lines.{pointed};

use crate::cells::add_blanks;
use crate::faults::PrintFault;
use crate::sends::send;
use apl_base::{ErrorKind, Name, NoMemory, Place};
use apl_compile::{Program, one_report};
use apl_outside::Sink;
use itoa::Buffer;
use std::alloc::Global;
use std::fmt::Write;

/// Writes the report of an error at a place of a program's script: the error's name; six blanks, or the function's
/// name and the number of its line in brackets, before the line as written; and a caret under the place. It takes
/// the time of two look-ups in tables, beside that of its text.
pub fn write_report<O: Sink>(
    alloc: Global,
    kind: ErrorKind,
    place: Place,
    program: &Program,
    out: &mut O,
) -> Result<(), PrintFault>
    ensures ok { (s : Script) → program.now ≡ program_of s → OnOk result
        (Gains (O.written out.old) (O.written out.new) (encode_utf8_all (report s kind place))) }
    ensures err { (s : Script) → program.now ≡ program_of s → OnErr result
        (GainsPrefix (O.written out.old) (O.written out.new)
        (encode_utf8_all (report s kind place))) }
    ensures rose { IsErrOf result PrintFault.OutFault → Rose (O.faults out.old) (O.faults out.new) }
    ensures never_falls { O.faults out.old ≤ O.faults out.new }
{
    // It tells the proof that the outline has the script's reports.
    one_report();
    let Ok(text) = text_of_report(alloc, kind, place, program) else {
        return Err(PrintFault::NoMemory);
    };
    send(text.as_str(), out)
}

// The report, as the outline tells it.
fn text_of_report(
    alloc: Global,
    kind: ErrorKind,
    place: Place,
    program: &Program,
) -> Result<String, NoMemory>
    ensures { IfOk result (λ text. string_bytes text
        ≡ encode_utf8_all (report_in program.now.outline kind place)) }
{
    let line = program.text(place.line);
    let mut text = String::from_str(alloc, name_of(kind))?;
    text.push_str(" ERROR\n")?;
    match program.function_with(place.line) {
        Some((f, before)) => add_body_line(f, before, line, place.column, &mut text)?,
        None => add_plain_line(line, place.column, &mut text)?,
    }
    Ok(text)
}

// Appends a line outside definitions, and a caret under its column.
fn add_plain_line(line: &str, column: u32, text: &mut String) -> Result<(), NoMemory>
    ensures { OnOk result (string_bytes text.new ≡ string_bytes text.old
        ++ encode_utf8_all (pointed plain_prefix (chars line.now) column)) }
{
    write!(text, "      {line}\n")?;
    add_blanks(6, text)?;
    add_caret(column, text)
}

// Appends a line of a function's body, before which so many stand there, and a caret under its column.
fn add_body_line(
    f: &Name,
    before: usize,
    line: &str,
    column: u32,
    text: &mut String,
) -> Result<(), NoMemory>
    ensures { OnOk result (string_bytes text.new ≡ string_bytes text.old
        ++ encode_utf8_all (pointed (body_prefix f.now (suc before)) (chars line.now) column)) }
{
    let mut digits = Buffer::new();
    let number = digits.format(before as u128 + 1);
    let name = f.as_str();
    write!(text, "{name}[{number}] {line}\n")?;
    add_blanks(character_count(name), text)?;
    add_blanks(number.len() as u64 + 3, text)?;
    add_caret(column, text)
}

// Appends the blanks before a column, which counts from 1, and a caret, on a line.
fn add_caret(column: u32, text: &mut String) -> Result<(), NoMemory>
    ensures { OnOk result (string_bytes text.new
        ≡ string_bytes text.old ++ encode_utf8_all (replicate (column - 1) 32 ++ codes "^\n")) }
{
    add_blanks(u64::from(column.saturating_sub(1)), text)?;
    text.push_str("^\n")?;
    Ok(())
}

// How many characters a text has.
fn character_count(text: &str) -> u64
    ensures { result ≡ length (chars text.now) }
{
    text.chars().count() as u64
}

// The name of an error.
fn name_of(kind: ErrorKind) -> &'static str
    ensures { result.now ≡ error_name kind }
{
    match kind {
        ErrorKind::Value => "VALUE",
        ErrorKind::Domain => "DOMAIN",
        ErrorKind::Length => "LENGTH",
        ErrorKind::Rank => "RANK",
        ErrorKind::Index => "INDEX",
        ErrorKind::Limit => "LIMIT",
        ErrorKind::Depth => "DEPTH",
    }
}
