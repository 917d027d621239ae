//! What a token is to the reader.

ghost use Rattle.std.specs.Prelude.{◌≡◌, IfOk};
ghost use Rattle.apl_model.proofs.Machine.{sort};
ghost use Rattle.apl_tree.specs.Mirror.{sort_of};

use crate::arguments::NameClasses;
use crate::glyphs::glyph_sort;
use apl_base::{Cell, Dya, Kind, Mon, Name, NoMemory};
use apl_model::{DyaFn, Literal, MonFn, Word};
use sqlite_items::Items;
use std::alloc::Global;

/// What a token is to the grammar.
#[derive(Drop)]
pub enum Sort {
    Literal {
        literal: Literal,
    },
    /// A name, and how many arguments its function has.
    Named {
        name: Name,
        arguments: Option<u8>,
    },
    /// A scalar function of two arguments, and its reading with one.
    Scalar {
        f: Dya,
        alone: Option<Mon>,
    },
    /// A function that takes no axis in brackets, with one argument and with two.
    Plain {
        alone: Option<MonFn>,
        between: Option<DyaFn>,
    },
    Turn,
    Slash,
    SlashFirst,
    Backslash,
    Jot,
    Dot,
    Assign,
    Arrow,
    Quad,
    OpenParen,
    CloseParen,
    OpenBracket,
    CloseBracket,
    Semicolon,
    Other,
}

/// What a word is to the grammar, over these classes of names.
pub(crate) fn classify<C: NameClasses>(
    alloc: Global,
    classes: &C,
    word: &Word,
) -> Result<Sort, NoMemory>
    ensures { IfOk result (λ s. sort_of s ≡ sort (C.headings classes.now) word.now) }
{
    match word {
        Word::Numbers { cells } => literal_sort(alloc, Kind::Num, cells),
        Word::Chars { cells } => literal_sort(alloc, Kind::Char, cells),
        Word::Name { name } => named_sort(alloc, classes, name),
        Word::Glyph { glyph } => Ok(glyph_sort(*glyph)),
    }
}

/// A constant of these cells.
fn literal_sort(alloc: Global, kind: Kind, cells: &Items<Cell>) -> Result<Sort, NoMemory>
    ensures { IfOk result (λ s. s ≡ Sort.Literal (record { kind = kind; cells = cells.now })) }
{
    let cells = Items::from_slice(alloc, cells.as_slice())?;
    Ok(Sort::Literal {
        literal: Literal { kind, cells },
    })
}

/// A name, with the number of its function's arguments.
fn named_sort<C: NameClasses>(alloc: Global, classes: &C, name: &Name) -> Result<Sort, NoMemory>
    ensures { IfOk result (λ s. sort_of s ≡ sort (C.headings classes.now) (Word.Name name.now)) }
{
    let arguments = classes.arguments(name);
    let name = name.copy(alloc)?;
    Ok(Sort::Named { name, arguments })
}
