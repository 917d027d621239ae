//! The lines of refusals and of the trace.

ghost use Rattle.std.specs.Prelude.{◌≡◌, ◌≤◌, ◌++◌, List, map, pos, codes, encode_utf8_all, string_bytes, IfOk, IsErrOf, OnOk, OnErr};
ghost use Rattle.apl_outside.specs.Bytes.{Gains};
ghost use Rattle.apl_outside.specs.Faults.{Rose};
ghost use Rattle.apl_print.specs.Bytes.{GainsPrefix};
ghost use Rattle.apl_print.specs.Lines.{cause_words, cost_line, desc_line, line_of, numbers_field, refusal_line, source_fields, view_fields};
ghost use Rattle.std.specs.List.{flat_map};
ghost use Rattle.apl_model.specs.Printed.{blank, number_text};

use crate::cells::add_number;
use crate::costs::Cost;
use crate::faults::PrintFault;
use crate::sends::send;
use apl_base::{Cause, Cell, Name, NoMemory, Refusal};
use apl_outside::Sink;
use array_desc::Desc;
use drag_along::Leaf;
use std::alloc::{AllocError, Global};

/// Writes the line of a refusal: `REFUSED`, its line, its column and the words of its cause.
pub fn write_refusal<O: Sink>(
    alloc: Global,
    refusal: &Refusal,
    out: &mut O,
) -> Result<(), PrintFault>
    ensures ok { OnOk result (Gains (O.written out.old) (O.written out.new)
        (encode_utf8_all (refusal_line refusal.now))) }
    ensures err { OnErr result (GainsPrefix (O.written out.old) (O.written out.new)
        (encode_utf8_all (refusal_line refusal.now))) }
    ensures rose { IsErrOf result PrintFault.OutFault → Rose (O.faults out.old) (O.faults out.new) }
    ensures never_falls { O.faults out.old ≤ O.faults out.new }
{
    let Ok(line) = line_of_refusal(alloc, refusal) else {
        return Err(PrintFault::NoMemory);
    };
    send(line.as_str(), out)
}

// The line of a refusal.
fn line_of_refusal(alloc: Global, refusal: &Refusal) -> Result<String, AllocError>
    ensures { IfOk result (λ text. string_bytes text ≡ encode_utf8_all (refusal_line refusal.now)) }
{
    let Refusal {
        line,
        column,
        cause,
    } = *refusal;
    let words = words_of(cause);
    let text = format!(in alloc; "REFUSED {line} {column} {words}\n")?;
    Ok(text)
}

// The words of a cause.
fn words_of(cause: Cause) -> &'static str
    ensures { result.now ≡ cause_words cause }
{
    match cause {
        Cause::TooLong => "TOO LONG",
        Cause::Utf8 => "UTF8",
        Cause::LineLong => "LINE LONG",
        Cause::Character => "CHARACTER",
        Cause::Number => "NUMBER",
        Cause::OpenText => "OPEN TEXT",
        Cause::Header => "HEADER",
        Cause::DoubleName => "DOUBLE NAME",
        Cause::OpenDefinition => "OPEN DEFINITION",
        Cause::NameClass => "NAME CLASS",
        Cause::Deep => "DEEP",
        Cause::Grammar => "GRAMMAR",
    }
}

/// Writes the line of a statement that ended: `COST`, its line, its number among the statements begun, and what it
/// took.
pub fn write_cost<T: Sink>(alloc: Global, cost: &Cost, tr: &mut T) -> Result<(), PrintFault>
    ensures ok { OnOk result
        (Gains (T.written tr.old) (T.written tr.new) (encode_utf8_all (cost_line cost.now))) }
    ensures err { OnErr result
        (GainsPrefix (T.written tr.old) (T.written tr.new) (encode_utf8_all (cost_line cost.now))) }
    ensures rose { IsErrOf result PrintFault.OutFault → Rose (T.faults tr.old) (T.faults tr.new) }
    ensures never_falls { T.faults tr.old ≤ T.faults tr.new }
{
    let Ok(line) = line_of_cost(alloc, cost) else {
        return Err(PrintFault::NoMemory);
    };
    send(line.as_str(), tr)
}

// The line of a cost.
fn line_of_cost(alloc: Global, cost: &Cost) -> Result<String, AllocError>
    ensures { IfOk result (λ text. string_bytes text ≡ encode_utf8_all (cost_line cost.now)) }
{
    let Cost { line, begun, ops } = *cost;
    let text = format!(in alloc; "COST {line} {begun} {ops}\n")?;
    Ok(text)
}

/// Writes the line of a variable: `DESC`, its name, `S` and the owner's key for a stored leaf or `G` for another, and
/// the base, the strides and the lengths of the leaf's descriptor. It reads no element.
pub fn write_desc<T: Sink>(
    alloc: Global,
    name: &Name,
    leaf: &Leaf,
    tr: &mut T,
) -> Result<(), PrintFault>
    ensures ok { OnOk result (Gains (T.written tr.old) (T.written tr.new)
        (encode_utf8_all (desc_line name.now leaf.now))) }
    ensures err { OnErr result (GainsPrefix (T.written tr.old) (T.written tr.new)
        (encode_utf8_all (desc_line name.now leaf.now))) }
    ensures rose { IsErrOf result PrintFault.OutFault → Rose (T.faults tr.old) (T.faults tr.new) }
    ensures never_falls { T.faults tr.old ≤ T.faults tr.new }
{
    let Ok(line) = line_of_desc(alloc, name, leaf) else {
        return Err(PrintFault::NoMemory);
    };
    send(line.as_str(), tr)
}

// The line of a variable.
fn line_of_desc(alloc: Global, name: &Name, leaf: &Leaf) -> Result<String, NoMemory>
    ensures { IfOk result (λ text. string_bytes text
        ≡ encode_utf8_all (desc_line name.now leaf.now)) }
{
    let mut text = String::from_str(alloc, "DESC ")?;
    text.push_str(name.as_str())?;
    add_source(leaf, &mut text)?;
    add_view(alloc, leaf.desc(), &mut text)?;
    text.push('\n')?;
    Ok(text)
}

// Appends what a leaf reads, with a blank before each field.
fn add_source(leaf: &Leaf, text: &mut String) -> Result<(), NoMemory>
    ensures { OnOk result (string_bytes text.new ≡ string_bytes text.old
        ++ encode_utf8_all (flat_map (λ field. blank ++ field) (source_fields leaf.now))) }
{
    match leaf {
        Leaf::Stored { owner, .. } => {
            text.push_str(" S ")?;
            add_number(&(owner.key() as Cell), text)
        }
        Leaf::Gen { .. } => {
            text.push_str(" G")?;
            Ok(())
        }
    }
}

// Appends how a leaf reads, with a blank before each field.
fn add_view(alloc: Global, desc: &Desc, text: &mut String) -> Result<(), NoMemory>
    ensures { OnOk result (string_bytes text.new ≡ string_bytes text.old
        ++ encode_utf8_all (flat_map (λ field. blank ++ field) (view_fields desc.now))) }
{
    let lengths = cells_of(alloc, desc.shape.lengths())?;
    text.push(' ')?;
    add_number(&desc.base, text)?;
    text.push(' ')?;
    add_numbers(desc.strides.as_slice(), text)?;
    text.push(' ')?;
    add_numbers(lengths.as_slice(), text)
}

// Lengths as numbers of the language.
fn cells_of(alloc: Global, lengths: &[u64]) -> Result<Vec<Cell>, AllocError>
    ensures { IfOk result (λ cells. cells.items ≡ map pos lengths.now) }
{
    lengths.iter().map(|n| Cell::from(*n)).collect(alloc)
}

// Appends numbers joined by commas, or `-` where there is none.
fn add_numbers(numbers: &[Cell], text: &mut String) -> Result<(), NoMemory>
    ensures { OnOk result (string_bytes text.new
        ≡ string_bytes text.old ++ encode_utf8_all (numbers_field numbers.now)) }
{
    let Some((first, others)) = numbers.split_first() else {
        text.push('-')?;
        return Ok(());
    };
    add_number(first, text)?;
    add_further_numbers(others, text)
}

// Appends numbers, with a comma before each.
fn add_further_numbers(numbers: &[Cell], text: &mut String) -> Result<(), NoMemory>
    ensures { OnOk result (string_bytes text.new ≡ string_bytes text.old
        ++ encode_utf8_all (flat_map (λ z. codes "," ++ number_text z) numbers.now)) }
{
    for number in numbers {
        text.push(',')?;
        add_number(number, text)?;
    }
    Ok(())
}
