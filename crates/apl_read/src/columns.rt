//! The tokens of a line, or its first fault.
ghost use Rattle.std.specs.Prelude.{◌≡◌, ℕ, ◌+◌, ◌<◌, ◌≤◌, ◌^◌, List, [], ◌∷◌, length, OnOk, IfOk, IfErr, None};
ghost use Rattle.std.specs.Option.{option_map};
ghost use Rattle.apl_model.specs.Tokens.{Piece, tokens, tokens_of_pieces};
ghost use Rattle.apl_model.specs.ReadFaults.{IsRefusedAs, IsInColumn};
ghost use Rattle.apl_read.specs.Pieces.{found_of, made_before, pieces_from};
ghost use Rattle.apl_read.specs.Refusals.{first_fault, line_fault, refusal_of_fault};

use crate::characters::blank;
use crate::made::Made;
use crate::pieces::{Found, begin};
use crate::quotes::cells_of;
use apl_base::{Cause, NoMemory, Refusal};
use apl_model::{ReadFault, Token, Word};
use sqlite_items::Items;
use std::alloc::Global;

/// The most characters that a line may have.
const MOST_CHARACTERS: usize = 1000;

/// A refusal.
pub(crate) fn refuse<T>(line: u32, column: u32, cause: Cause) -> Result<T, ReadFault>
    ensures { result
        ≡ Err (ReadFault.Refused (record { line = line; column = column; cause = cause })) }
{
    Err(ReadFault::Refused {
        refusal: Refusal {
            line,
            column,
            cause,
        },
    })
}

/// The column of this number, where one can have it.
fn column_of(number: usize) -> u32
    ensures { number < 2 ^ 32 → result ≡ number }
{
    u32::try_from(number).unwrap_or(u32::MAX)
}

/// Adds the token of a piece, which covers the columns from `from` to the one before `past`.
fn add(
    alloc: Global,
    number: u32,
    found: Found,
    from: u32,
    past: u32,
    made: &mut Made,
) -> Result<(), ReadFault>
    ensures fault { OnOk result ((ps : List Piece) (p : ℕ)
        → first_fault (record { from = from; past = p; found = found_of found } ∷ ps)
        ≡ first_fault ps) }
    ensures tokens { OnOk result ((ps : List Piece)
        → made_before made.old (tokens_of_pieces (record { from = from; past = past; found = found_of found } ∷ ps)) ≡ made_before made.new (tokens_of_pieces ps)) }
    ensures place { IfErr result (λ fault. IsInColumn fault from) }
    ensures refused { IfErr result (λ fault. (ps : List Piece) (p : ℕ)
        → IsRefusedAs fault (option_map (refusal_of_fault number) (first_fault (record { from = from; past = p; found = found_of found } ∷ ps)))) }
{
    match found {
        Found::Number { value } => {
            made.add_number(from, past, value)?;
            Ok(())
        }
        Found::Text { characters } => {
            let cells = Items::from_vec(cells_of(alloc, characters.as_slice())?);
            let word = Word::Chars { cells };
            made.add_token(alloc, Token { from, past, word })?;
            Ok(())
        }
        Found::Name { name } => {
            let word = Word::Name { name };
            made.add_token(alloc, Token { from, past, word })?;
            Ok(())
        }
        Found::Glyph { glyph } => {
            let word = Word::Glyph { glyph };
            made.add_token(alloc, Token { from, past, word })?;
            Ok(())
        }
        Found::Fault { cause } => refuse(number, from, cause),
    }
}

/// Reads what stands at this index, and gives the index that is next.
fn step(
    alloc: Global,
    number: u32,
    text: &[char],
    at: usize,
    made: &mut Made,
) -> Result<usize, ReadFault>
    requires inside { at < length text.now }
    requires near { at < 1000 }
    ensures goes { IfOk result (λ next. at < next) }
    ensures within { IfOk result (λ next. next ≤ length text.now) }
    ensures fault { IfOk result (λ next. first_fault (pieces_from at text.now)
        ≡ first_fault (pieces_from next text.now)) }
    ensures tokens { IfOk result (λ next. length text.now ≤ 1000
        → made_before made.old (tokens_of_pieces (pieces_from at text.now))
        ≡ made_before made.new (tokens_of_pieces (pieces_from next text.now))) }
    ensures place { IfErr result (λ fault. IsInColumn fault (at + 1)) }
    ensures refused { IfErr result (λ fault. IsRefusedAs fault
        (option_map (refusal_of_fault number) (first_fault (pieces_from at text.now)))) }
{
    let c = text[at];
    if blank(c) {
        return Ok(at + 1);
    }
    if c == '⍝' {
        return Ok(text.len());
    }
    let begun = begin(alloc, text, at)?;
    let next = at + 1 + begun.more;
    add(
        alloc,
        number,
        begun.found,
        (at + 1) as u32,
        column_of(next + 1),
        made,
    )?;
    Ok(next)
}

/// The tokens of the line of this number.
pub(crate) fn read_columns(
    alloc: Global,
    number: u32,
    text: &[char],
) -> Result<Vec<Token>, ReadFault>
    ensures accepted { OnOk result (line_fault text.now ≡ None) }
    ensures tokens { IfOk result (λ read. read.items ≡ tokens text.now) }
    ensures refused { IfErr result
        (λ fault. IsRefusedAs fault (option_map (refusal_of_fault number) (line_fault text.now))) }
{
    let mut made = Made::new(alloc);
    let mut at = 0;
    while at < text.len() && at < MOST_CHARACTERS {
        at = step(alloc, number, text, at, &mut made)?;
    }
    if text.len() > MOST_CHARACTERS {
        return refuse(number, 1001, Cause::LineLong);
    }
    Ok(made.finish(alloc)?)
}
