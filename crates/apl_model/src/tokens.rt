//! Lines, their tokens, and classes of names.

use crate::texts::Text;
use apl_base::{Cell, Name};
use sqlite_items::Items;

/// A token of a line: it covers the columns from `from` to the one before `past`, counted from 1.
#[derive(Drop)]
pub struct Token {
    pub from: u32,
    pub past: u32,
    pub word: Word,
}

impl Token {
    ghost use Rattle.std.specs.Prelude.{◌≡◌};
    ghost use Rattle.std.specs.Option.{option_map};
    ghost use Rattle.apl_model.specs.Script.{has_glyph, name_of_token};

    /// Whether the token is this glyph.
    pub fn is_glyph(&self, glyph: char) -> bool
        ensures { result ≡ has_glyph glyph self.now }
    {
        match &self.word {
            Word::Glyph { glyph: this } => *this == glyph,
            _ => false,
        }
    }

    /// The name that the token is, where it is one.
    pub fn name(&self) -> Option<&Name>
        ensures { option_map (λ name. name.now) result ≡ name_of_token self.now }
    {
        match &self.word {
            Word::Name { name } => Some(name),
            _ => None,
        }
    }
}

/// What a token is.
#[derive(Drop)]
pub enum Word {
    /// The numbers that stand side by side.
    Numbers { cells: Items<Cell> },
    /// The characters of a text in quotes.
    Chars { cells: Items<Cell> },
    Name { name: Name },
    /// Any other token, of one character. One that is read as another is kept as that other one.
    Glyph { glyph: char },
}

/// A line of the script: its number, counted from 1, its text, and its tokens.
#[derive(Drop)]
pub struct Line {
    pub number: u32,
    pub text: Text,
    pub tokens: Items<Token>,
}

/// The lines of a script, in order.
#[derive(Drop)]
pub struct Lines {
    pub lines: Items<Line>,
}

/// A name that heads a definition, and how many arguments its function has: 0, 1 or 2.
#[derive(Drop)]
pub struct Heading {
    pub name: Name,
    pub arguments: u8,
}

/// The classes of names: which ones head a definition. Every other name is a variable's or a label's.
#[derive(Drop)]
pub struct Classes {
    pub headings: Items<Heading>,
}
