//! Lines again, with their tokens, words and texts.
ghost use Rattle.std.specs.Prelude.{◌≡◌, IfOk};

use apl_base::NoMemory;
use apl_model::{Line, Text, Token, Word};
use sqlite_items::Items;
use std::alloc::Global;

/// A text again.
fn copy_text(alloc: Global, text: &Text) -> Result<Text, NoMemory>
    ensures { IfOk result (λ copy. copy ≡ text.now) }
{
    Ok(Text::of(String::from_str(alloc, text.as_str())?))
}

/// A word again.
fn copy_word(alloc: Global, word: &Word) -> Result<Word, NoMemory>
    ensures { IfOk result (λ copy. copy ≡ word.now) }
{
    match word {
        Word::Numbers { cells } => {
            let cells = Items::from_slice(alloc, cells.as_slice())?;
            Ok(Word::Numbers { cells })
        }
        Word::Chars { cells } => {
            let cells = Items::from_slice(alloc, cells.as_slice())?;
            Ok(Word::Chars { cells })
        }
        Word::Name { name } => {
            let name = name.copy(alloc)?;
            Ok(Word::Name { name })
        }
        Word::Glyph { glyph } => Ok(Word::Glyph { glyph: *glyph }),
    }
}

/// Tokens again.
fn copy_tokens(alloc: Global, tokens: &[Token]) -> Result<Vec<Token>, NoMemory>
    ensures { IfOk result (λ copies. copies.items ≡ tokens.now) }
{
    let mut copies = Vec::new(alloc);
    for token in tokens {
        let word = copy_word(alloc, &token.word)?;
        let (from, past) = (token.from, token.past);
        copies.push(Token { from, past, word })?;
    }
    Ok(copies)
}

/// A line again.
fn copy_line(alloc: Global, line: &Line) -> Result<Line, NoMemory>
    ensures { IfOk result (λ copy. copy ≡ line.now) }
{
    Ok(Line {
        number: line.number,
        text: copy_text(alloc, &line.text)?,
        tokens: Items::from_vec(copy_tokens(alloc, line.tokens.as_slice())?),
    })
}

/// Lines again.
pub(crate) fn copy_lines(alloc: Global, lines: &[Line]) -> Result<Vec<Line>, NoMemory>
    ensures { IfOk result (λ copies. copies.items ≡ lines.now) }
{
    let mut copies = Vec::new(alloc);
    for line in lines {
        copies.push(copy_line(alloc, line)?)?;
    }
    Ok(copies)
}
