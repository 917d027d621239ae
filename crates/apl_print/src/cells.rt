//! The texts of cells.

ghost use Rattle.std.specs.Prelude.{◌≡◌, ◌+◌, ◌-◌, ◌≤◌, ◌++◌, length, replicate, decimal, encode_utf8_all, string_bytes, OnOk};
ghost use Rattle.apl_base.specs.Number.{IsCell, IsCharacter};
ghost use Rattle.apl_model.specs.Printed.{cell_text, number_text, right_justified};

use apl_base::{Cell, Kind, NoMemory};
use itoa::Buffer;

/// Appends so many blanks.
pub(crate) fn add_blanks(count: u64, text: &mut String) -> Result<(), NoMemory>
    ensures { OnOk result (string_bytes text.new
        ≡ string_bytes text.old ++ encode_utf8_all (replicate count 32)) }
{
    for _blank in 0..count {
        text.push(' ')?;
    }
    Ok(())
}

/// Appends a number: its digits, with `¯` before a negative one.
pub(crate) fn add_number(number: &Cell, text: &mut String) -> Result<(), NoMemory>
    ensures { OnOk result (string_bytes text.new
        ≡ string_bytes text.old ++ encode_utf8_all (number_text number.now)) }
{
    if *number < 0 {
        text.push('¯')?;
    }
    add_digits(number.unsigned_abs(), text)
}

// Appends the digits of a number.
fn add_digits(number: u128, text: &mut String) -> Result<(), NoMemory>
    ensures { OnOk result (string_bytes text.new
        ≡ string_bytes text.old ++ encode_utf8_all (decimal number)) }
{
    let mut digits = Buffer::new();
    text.push_str(digits.format(number))?;
    Ok(())
}

/// Appends a cell's text: a number, or the character itself.
pub(crate) fn add_cell(kind: Kind, cell: &Cell, text: &mut String) -> Result<(), NoMemory>
    requires { IsCell kind cell.now }
    ensures { OnOk result (string_bytes text.new
        ≡ string_bytes text.old ++ encode_utf8_all (cell_text kind cell.now)) }
{
    match kind {
        Kind::Num => add_number(cell, text),
        Kind::Char => add_character(cell, text),
    }
}

// Appends the character of a code.
fn add_character(code: &Cell, text: &mut String) -> Result<(), NoMemory>
    requires { IsCharacter code.now }
    ensures { OnOk result (string_bytes text.new
        ≡ string_bytes text.old ++ encode_utf8_all (cell_text Kind.Char code.now)) }
{
    let Some(character) = char::from_u32(*code as u32) else {
        unreachable!()
    };
    text.push(character)?;
    Ok(())
}

/// How many characters a cell's text has.
pub(crate) fn width_of(kind: Kind, cell: &Cell) -> u8
    requires { IsCell kind cell.now }
    ensures { result ≡ length (cell_text kind cell.now) }
{
    match kind {
        Kind::Num => number_width(cell),
        Kind::Char => 1,
    }
}

// How many characters a number's text has.
fn number_width(number: &Cell) -> u8
    ensures { result ≡ length (number_text number.now) }
{
    let mut buffer = Buffer::new();
    let digits = buffer.format(number.unsigned_abs()).len() as u8;
    if *number < 0 { digits + 1 } else { digits }
}

/// Appends a cell's text at the right end of a column of this width. A wider text is not cut.
pub(crate) fn add_field(
    kind: Kind,
    width: u8,
    cell: &Cell,
    text: &mut String,
) -> Result<(), NoMemory>
    requires { IsCell kind cell.now }
    ensures { OnOk result (string_bytes text.new
        ≡ string_bytes text.old
        ++ encode_utf8_all (right_justified width (cell_text kind cell.now))) }
{
    if width > 0 {
        add_blanks(u64::from(width.saturating_sub(width_of(kind, cell))), text)?;
    }
    add_cell(kind, cell, text)
}
