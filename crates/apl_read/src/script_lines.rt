//! The lines of a script.
ghost use Rattle.std.specs.Prelude.{◌≡◌, ◌≢◌, ◌==◌, ◌<◌, ◌∷◌, [], length, map, take, position, IfOk, IfSome, OnOk, IfErr, None};
ghost use Rattle.std.specs.Option.{option_map};
ghost use Rattle.std.specs.Str.{chars};
ghost use Rattle.std.specs.Str.Lossy.{utf8_valid_len};
ghost use Rattle.apl_model.specs.Lines.{without_mark, cut, without_return, lines_of, numbered};
ghost use Rattle.apl_model.specs.Refusal.{place_after};
ghost use Rattle.apl_model.specs.Tokens as model;
ghost use Rattle.apl_model.specs.ReadFaults.{IsRefusedAs};
ghost use Rattle.apl_read.specs.Refusals.{line_fault, refusal_of_fault, lines_refusal, reading_refusal};

use crate::columns::{read_columns, refuse};
use crate::pieces::string_of;
use apl_base::{Cause, NoMemory};
use apl_model::{Line, ReadFault, Text};
use sqlite_items::Items;
use std::alloc::Global;
use std::str;

/// The longest front that is UTF-8.
fn readable_text(script: &[u8]) -> &str
    ensures { result.now ≡ take (utf8_valid_len script.now) script.now }
{
    match str::from_utf8(script) {
        Ok(text) => text,
        Err(error) => match str::from_utf8(&script[..error.valid_up_to()]) {
            Ok(text) => text,
            Err(_) => unreachable!(),
        },
    }
}

/// The characters of a text.
pub(crate) fn characters_of(alloc: Global, text: &str) -> Result<Vec<char>, NoMemory>
    ensures { IfOk result (λ characters. characters.items ≡ chars text.now) }
{
    let characters = text.chars().collect(alloc)?;
    Ok(characters)
}

/// The characters without U+FEFF at the very start.
fn unmarked(characters: &[char]) -> &[char]
    ensures { result.now ≡ without_mark characters.now }
{
    match characters {
        ['\u{feff}', rest @ ..] => rest,
        _ => characters,
    }
}

/// The place of the first LF.
fn line_end(rest: &[char]) -> Option<usize>
    ensures { result ≡ position (λ c. c == 10) rest.now }
{
    rest.iter().position(|c| *c == '\n')
}

/// The first line of what is left of a script, and what is left after it.
fn next_line(rest: &[char]) -> (&[char], &[char])
    requires { rest.now ≢ [] }
    ensures first { cut rest.now ≡ result.0.now ∷ cut result.1.now }
    ensures shorter { length result.1.now < length rest.now }
{
    match line_end(rest) {
        Some(at) => (&rest[..at], &rest[at + 1..]),
        None => (rest, &[]),
    }
}

/// The line without CR at its end.
fn unreturned(line: &[char]) -> &[char]
    ensures { result.now ≡ without_return line.now }
{
    if line.is_empty() {
        return line;
    }
    let front = line.len() - 1;
    if line[front] == '\r' {
        &line[..front]
    } else {
        line
    }
}

/// The place after these characters, where it has numbers.
fn end_of(characters: &[char]) -> Option<(u32, u32)>
    ensures { IfSome result (λ place. place_after 1 1 characters.now ≡ (place.0, place.1)) }
{
    let mut line = 1u32;
    let mut column = 1u32;
    for c in characters {
        if *c == '\n' {
            line = line.checked_add(1)?;
            column = 1;
        } else {
            column = column.checked_add(1)?;
        }
    }
    Some((line, column))
}

/// The line of this number and text.
fn read_line(alloc: Global, number: u32, text: &[char]) -> Result<Line, ReadFault>
    ensures accepted { OnOk result (line_fault text.now ≡ None) }
    ensures line { IfOk result (λ line. line
        ≡ record { number = number; text = text.now; tokens = model.tokens text.now }) }
    ensures refused { IfErr result
        (λ fault. IsRefusedAs fault (option_map (refusal_of_fault number) (line_fault text.now))) }
{
    let tokens = read_columns(alloc, number, text)?;
    let text = Text::of(string_of(alloc, text)?);
    Ok(Line {
        number,
        text,
        tokens: Items::from_vec(tokens),
    })
}

/// The lines of these characters.
fn read_lines(alloc: Global, characters: &[char]) -> Result<Vec<Line>, ReadFault>
    ensures accepted { OnOk result (lines_refusal 1 (map without_return (cut characters.now))
        ≡ None) }
    ensures lines { IfOk result (λ lines. lines.items
        ≡ numbered 1 (map without_return (cut characters.now))) }
    ensures refused { IfErr result
        (λ fault. IsRefusedAs fault (lines_refusal 1 (map without_return (cut characters.now)))) }
{
    let mut lines = Vec::new(alloc);
    let mut number = 1u32;
    let mut rest = characters;
    while !rest.is_empty() {
        let (text, after) = next_line(rest);
        let line = read_line(alloc, number, unreturned(text))?;
        lines.push(line).map_err(|_| ReadFault::NoMemory)?;
        rest = after;
        number = number.checked_add(1).ok_or(ReadFault::NoMemory)?;
    }
    Ok(lines)
}

/// The lines of a script, or its first refusal.
pub(crate) fn read_bytes(alloc: Global, script: &[u8]) -> Result<Vec<Line>, ReadFault>
    ensures accepted { OnOk result (reading_refusal script.now ≡ None) }
    ensures lines { IfOk result (λ lines. lines.items ≡ lines_of script.now) }
    ensures refused { IfErr result (λ fault. IsRefusedAs fault (reading_refusal script.now)) }
{
    let text = readable_text(script);
    let all = characters_of(alloc, text)?;
    let characters = unmarked(all.as_slice());
    let lines = read_lines(alloc, characters)?;
    if text.len() < script.len() {
        let (line, column) = end_of(characters).ok_or(ReadFault::NoMemory)?;
        return refuse(line, column, Cause::Utf8);
    }
    Ok(lines)
}
