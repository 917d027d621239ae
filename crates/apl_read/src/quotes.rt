//! Texts in quotes.
ghost use Rattle.std.specs.Prelude.{◌≡◌, ◌≤◌, length, IfOk, IfSome, map, pos};
ghost use Rattle.std.specs.Option.{option_map};
ghost use Rattle.apl_model.specs.Tokens.{quoted};
ghost use Rattle.apl_read.specs.Pieces.{quoted_of};

use apl_base::{Cell, NoMemory};
use std::alloc::Global;

/// The characters of a text in quotes, and how many characters of the line they cover with the closing quote.
#[derive(Drop)]
pub(crate) struct Quoted {
    pub characters: Vec<char>,
    pub covers: usize,
}

/// The text whose opening quote stands before these characters, if it ends.
pub(crate) fn read_quoted(alloc: Global, rest: &[char]) -> Result<Option<Quoted>, NoMemory>
    ensures same { IfOk result (λ q. option_map quoted_of q ≡ quoted rest.now) }
    ensures within { IfOk result (λ q. IfSome q (λ text. text.covers ≤ length rest.now)) }
{
    let mut characters = Vec::new(alloc);
    let mut at = 0;
    while at < rest.len() {
        let c = rest[at];
        if c != '\'' {
            characters.push(c)?;
            at += 1;
        } else if at + 1 < rest.len() && rest[at + 1] == '\'' {
            characters.push(c)?;
            at += 2;
        } else {
            let covers = at + 1;
            return Ok(Some(Quoted { characters, covers }));
        }
    }
    Ok(None)
}

/// The cells of characters.
pub(crate) fn cells_of(alloc: Global, characters: &[char]) -> Result<Vec<Cell>, NoMemory>
    ensures { IfOk result (λ cells. cells.items ≡ map pos characters.now) }
{
    let mut cells = Vec::new(alloc);
    for c in characters {
        cells.push(Cell::from(u32::from(*c)))?;
    }
    Ok(cells)
}
