//! What a glyph is to the reader.

ghost use Rattle.std.specs.Prelude.{◌≡◌, drop};
ghost use Rattle.apl_model.proofs.Machine.{sort_in, entries};
ghost use Rattle.apl_tree.specs.Mirror.{sort_of};

use crate::sorts::Sort;
use apl_base::{Dya, Mon};
use apl_model::{Axis, DyaFn, MonFn};

/// What a glyph is to the grammar: a scalar function, another function, or a sign of its own.
pub fn glyph_sort(glyph: char) -> Sort
    ensures { sort_of result ≡ sort_in entries glyph }
{
    match glyph {
        '+' => scalar(Dya::Add, Some(Mon::Plus)),
        '-' => scalar(Dya::Sub, Some(Mon::Minus)),
        '×' => scalar(Dya::Mul, Some(Mon::Sign)),
        '÷' => scalar(Dya::Div, Some(Mon::Recip)),
        '*' => scalar(Dya::Pow, None),
        '⌈' => scalar(Dya::Max, Some(Mon::Ceil)),
        '⌊' => scalar(Dya::Min, Some(Mon::Floor)),
        '|' => scalar(Dya::Residue, Some(Mon::Abs)),
        _ => truth_sort(glyph),
    }
}

/// The scalar functions that give 0 or 1.
fn truth_sort(glyph: char) -> Sort
    ensures { sort_of result ≡ sort_in (drop 8 entries) glyph }
{
    match glyph {
        '∧' => scalar(Dya::And, None),
        '∨' => scalar(Dya::Or, None),
        '⍲' => scalar(Dya::Nand, None),
        '⍱' => scalar(Dya::Nor, None),
        '<' => scalar(Dya::Lt, None),
        '≤' => scalar(Dya::Le, None),
        '=' => scalar(Dya::Eq, None),
        '≥' => scalar(Dya::Ge, None),
        '>' => scalar(Dya::Gt, None),
        '≠' => scalar(Dya::Ne, None),
        _ => monadic_sort(glyph),
    }
}

/// The functions that have a reading with one argument.
fn monadic_sort(glyph: char) -> Sort
    ensures { sort_of result ≡ sort_in (drop 18 entries) glyph }
{
    match glyph {
        '~' => plain(Some(MonFn::Scalar { f: Mon::Not }), None),
        '!' => plain(Some(MonFn::Scalar { f: Mon::Fact }), None),
        '⍳' => plain(Some(MonFn::Iota), Some(DyaFn::IndexOf)),
        '⍴' => plain(Some(MonFn::Shape), Some(DyaFn::Reshape)),
        ',' => plain(Some(MonFn::Ravel), Some(DyaFn::Catenate)),
        '⍉' => plain(Some(MonFn::Transpose), Some(DyaFn::Transpose)),
        '⊖' => plain(
            Some(MonFn::Reverse { axis: Axis::First }),
            Some(DyaFn::Rotate { axis: Axis::First }),
        ),
        '⍋' => plain(Some(MonFn::GradeUp), None),
        '⍒' => plain(Some(MonFn::GradeDown), None),
        _ => dyadic_sort(glyph),
    }
}

/// The functions that have no such reading.
fn dyadic_sort(glyph: char) -> Sort
    ensures { sort_of result ≡ sort_in (drop 27 entries) glyph }
{
    match glyph {
        '↑' => plain(None, Some(DyaFn::Take)),
        '↓' => plain(None, Some(DyaFn::Skip)),
        '∈' => plain(None, Some(DyaFn::Member)),
        '⊤' => plain(None, Some(DyaFn::Encode)),
        '⊥' => plain(None, Some(DyaFn::Decode)),
        '⍀' => plain(None, Some(DyaFn::Expand { axis: Axis::First })),
        _ => sign_sort(glyph),
    }
}

/// The glyphs that the grammar speaks of each by itself.
fn sign_sort(glyph: char) -> Sort
    ensures { sort_of result ≡ sort_in (drop 33 entries) glyph }
{
    match glyph {
        '⌽' => Sort::Turn,
        '/' => Sort::Slash,
        '⌿' => Sort::SlashFirst,
        '\\' => Sort::Backslash,
        '∘' => Sort::Jot,
        '.' => Sort::Dot,
        '←' => Sort::Assign,
        '→' => Sort::Arrow,
        '⎕' => Sort::Quad,
        '(' => Sort::OpenParen,
        ')' => Sort::CloseParen,
        '[' => Sort::OpenBracket,
        ']' => Sort::CloseBracket,
        ';' => Sort::Semicolon,
        _ => Sort::Other,
    }
}

/// A scalar function.
fn scalar(f: Dya, alone: Option<Mon>) -> Sort
    ensures { result ≡ Sort.Scalar f alone }
{
    Sort::Scalar { f, alone }
}

/// A function that takes no axis in brackets.
fn plain(alone: Option<MonFn>, between: Option<DyaFn>) -> Sort
    ensures { result ≡ Sort.Plain alone between }
{
    Sort::Plain { alone, between }
}
