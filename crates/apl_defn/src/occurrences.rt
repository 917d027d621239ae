//! Names at their places.
ghost use Rattle.std.specs.Prelude.{◌≡◌, ◌∷◌, []};
ghost use Rattle.apl_model.specs.Refusal.{names_in, label_in};
ghost use Rattle.apl_defn.specs.Occurrences.{at_most_one};

use apl_base::Name;
use apl_model::{Line, Token};

/// A name at its place.
#[derive(Clone, Copy)]
pub(crate) struct Occurrence<'a> {
    pub(crate) name: &'a Name,
    pub(crate) line: u32,
    pub(crate) column: u32,
}

/// The name that a token of the line of this number is.
pub(crate) fn name_at(line: u32, token: &Token) -> Option<Occurrence<'_>>
    ensures { at_most_one result ≡ names_in line (token.now ∷ []) }
{
    let name = token.name()?;
    Some(Occurrence {
        name,
        line,
        column: token.from,
    })
}

/// The label of a line of a body: a name directly before `:` at its beginning.
pub(crate) fn label_of(line: &Line) -> Option<Occurrence<'_>>
    ensures { at_most_one result ≡ label_in line.now.number line.now.tokens }
{
    match line.tokens.as_slice() {
        [name, colon, ..] if colon.is_glyph(':') => name_at(line.number, name),
        _ => None,
    }
}
