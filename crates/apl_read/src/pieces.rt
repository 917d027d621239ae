//! What begins at a character of a line.
ghost use Rattle.std.specs.Prelude.{◌≡◌, ◌+◌, ◌<◌, ◌≤◌, length, drop, slice_index, IfOk};
ghost use Rattle.std.specs.List.{prefix_len};
ghost use Rattle.std.specs.Str.{chars};
ghost use Rattle.std.specs.String.{string_bytes};
ghost use Rattle.apl_model.specs.Characters.{is_name_part, is_number_part};
ghost use Rattle.apl_model.specs.Tokens.{beginning, name_at, number_at, text_at};
ghost use Rattle.apl_read.specs.Pieces.{beginning_of, beginning_of_glyph, found_of, number_found};

use crate::characters::{first_spelling, glyph, letter, name_part, number_part, number_start};
use crate::numbers::read_number;
use crate::quotes::{Quoted, read_quoted};
use apl_base::{Cause, Cell, Name, NoMemory};
use std::alloc::Global;

/// What a piece of a line is.
#[derive(Drop)]
pub(crate) enum Found {
    Number { value: Cell },
    Text { characters: Vec<char> },
    Name { name: Name },
    Glyph { glyph: char },
    Fault { cause: Cause },
}

/// What begins at a character, and how many more characters belong to it.
#[derive(Drop)]
pub(crate) struct Begun {
    pub found: Found,
    pub more: usize,
}

/// The text of these characters.
pub(crate) fn string_of(alloc: Global, characters: &[char]) -> Result<String, NoMemory>
    ensures { IfOk result (λ text. chars (string_bytes text) ≡ characters.now) }
{
    let text: String = characters.iter().copied().collect(alloc)?;
    Ok(text)
}

/// How many characters a name goes on over.
fn name_length(rest: &[char]) -> usize
    ensures same { result ≡ prefix_len is_name_part rest.now }
    ensures within { result ≤ length rest.now }
{
    for (at, c) in rest.iter().enumerate() {
        if !name_part(*c) {
            return at;
        }
    }
    rest.len()
}

/// How many characters a numeric word goes on over.
fn number_length(rest: &[char]) -> usize
    ensures same { result ≡ prefix_len is_number_part rest.now }
    ensures within { result ≤ length rest.now }
{
    for (at, c) in rest.iter().enumerate() {
        if !number_part(*c) {
            return at;
        }
    }
    rest.len()
}

/// The name at this index.
fn begin_name(alloc: Global, line: &[char], at: usize) -> Result<Begun, NoMemory>
    requires { at < length line.now }
    ensures same { IfOk result (λ b. beginning_of b
        ≡ name_at (slice_index line.now at) (drop (at + 1) line.now)) }
    ensures within { IfOk result (λ b. at + 1 + b.more ≤ length line.now) }
{
    let more = name_length(&line[at + 1..]);
    let text = string_of(alloc, &line[at..at + 1 + more])?;
    let name = Name::of(alloc, text.as_str())?;
    Ok(Begun {
        found: Found::Name { name },
        more,
    })
}

/// The number of a numeric word, or its fault.
fn found_number(word: &[char]) -> Found
    ensures { found_of result ≡ number_found word.now }
{
    match read_number(word) {
        Some(value) => Found::Number { value },
        None => Found::Fault {
            cause: Cause::Number,
        },
    }
}

/// The numeric word at this index.
fn begin_number(line: &[char], at: usize) -> Begun
    requires { at < length line.now }
    ensures same { beginning_of result
        ≡ number_at (slice_index line.now at) (drop (at + 1) line.now) }
    ensures within { at + 1 + result.more ≤ length line.now }
{
    let more = number_length(&line[at + 1..]);
    let found = found_number(&line[at..at + 1 + more]);
    Begun { found, more }
}

/// The text after its opening quote. One that doesn't end takes the rest of the line.
fn begin_text(alloc: Global, rest: &[char]) -> Result<Begun, NoMemory>
    ensures same { IfOk result (λ b. beginning_of b ≡ text_at rest.now) }
    ensures within { IfOk result (λ b. b.more ≤ length rest.now) }
{
    match read_quoted(alloc, rest)? {
        Some(Quoted { characters, covers }) => Ok(Begun {
            found: Found::Text { characters },
            more: covers,
        }),
        None => Ok(Begun {
            found: Found::Fault {
                cause: Cause::OpenText,
            },
            more: rest.len(),
        }),
    }
}

/// The glyph that the character is, or its fault.
fn begin_glyph(c: char) -> Begun
    ensures same { beginning_of result ≡ beginning_of_glyph c }
    ensures alone { result.more ≡ 0 }
{
    let read = first_spelling(c);
    let found = if glyph(read) {
        Found::Glyph { glyph: read }
    } else {
        Found::Fault {
            cause: Cause::Character,
        }
    };
    Begun { found, more: 0 }
}

/// What begins at this index.
pub(crate) fn begin(alloc: Global, line: &[char], at: usize) -> Result<Begun, NoMemory>
    requires { at < length line.now }
    ensures same { IfOk result (λ b. beginning_of b
        ≡ beginning (slice_index line.now at) (drop (at + 1) line.now)) }
    ensures within { IfOk result (λ b. at + 1 + b.more ≤ length line.now) }
{
    let c = line[at];
    if letter(c) {
        return begin_name(alloc, line, at);
    }
    if number_start(c) {
        return Ok(begin_number(line, at));
    }
    if c == '\'' {
        return begin_text(alloc, &line[at + 1..]);
    }
    Ok(begin_glyph(c))
}
