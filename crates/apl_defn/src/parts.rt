//! The parts of a script: lines outside definitions, and definitions.
ghost use Rattle.std.specs.Prelude.{◌≡◌, ◌∷◌, ◌<◌, ◌≤◌, [], length, position, false, MatchOption, OnSome};
ghost use Rattle.apl_model.specs.Script.{parts, opens, closes, is_empty};
ghost use Rattle.apl_defn.specs.Parts.{part_of};

use apl_model::Line;

/// A part of a script: a line outside definitions that has tokens, or a definition: its first line, its body, and the
/// line that closes it, where there is one.
pub(crate) enum Part<'a> {
    Alone {
        line: &'a Line,
    },
    Defined {
        first: &'a Line,
        body: &'a [Line],
        last: Option<&'a Line>,
    },
}

/// The parts of a script that are left.
#[derive(Drop)]
pub(crate) struct Parts<'a> {
    rest: &'a [Line],
}

/// Whether a line opens a definition, where none is open.
fn opens_definition(line: &Line) -> bool
    ensures { result ≡ opens line.now.tokens }
{
    match line.tokens.as_slice() {
        [first, _, ..] => first.is_glyph('∇'),
        _ => false,
    }
}

/// Whether a line is a `∇` alone, which closes a definition.
pub(crate) fn closes_definition(line: &Line) -> bool
    ensures { result ≡ closes line.now.tokens }
{
    match line.tokens.as_slice() {
        [only] => only.is_glyph('∇'),
        _ => false,
    }
}

/// The place of the first line that closes a definition.
fn closing_line(lines: &[Line]) -> Option<usize>
    ensures { result ≡ position (λ line. closes line.tokens) lines.now }
{
    lines.iter().position(closes_definition)
}

/// The part that begins with a line outside definitions that has tokens, and the lines after it.
fn part_from<'a>(line: &'a Line, after: &'a [Line]) -> (Part<'a>, &'a [Line])
    requires { is_empty line.now.tokens ≡ false }
    ensures parts { parts (line.now ∷ after.now) ≡ part_of result.0 ∷ parts result.1.now }
    ensures fewer { length result.1.now ≤ length after.now }
{
    if !opens_definition(line) {
        return (Part::Alone { line }, after);
    }
    match closing_line(after) {
        Some(at) => {
            let part = Part::Defined {
                first: line,
                body: &after[..at],
                last: Some(&after[at]),
            };
            (part, &after[at + 1..])
        }
        None => {
            let part = Part::Defined {
                first: line,
                body: after,
                last: None,
            };
            (part, &[])
        }
    }
}

impl<'a> Parts<'a> {
    /// The parts of these lines.
    pub(crate) fn of(lines: &'a [Line]) -> Parts<'a>
        ensures { result.rest.now ≡ lines.now }
    {
        Parts { rest: lines }
    }

    /// Takes the next part, where there is one.
    pub(crate) fn next(&mut self) -> Option<Part<'a>>
        ensures parts { MatchOption result (parts self.old.rest.now
            ≡ []) (λ part. parts self.old.rest.now ≡ part_of part ∷ parts self.new.rest.now) }
        ensures fewer { OnSome result (length self.new.rest.now < length self.old.rest.now) }
    {
        while let Some((line, after)) = self.rest.split_first() {
            if line.tokens.is_empty() {
                self.rest = after;
            } else {
                let (part, rest) = part_from(line, after);
                self.rest = rest;
                return Some(part);
            }
        }
        None
    }
}
