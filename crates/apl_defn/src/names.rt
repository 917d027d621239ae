//! Refusals of names, and of depth.
ghost use Rattle.std.specs.Prelude.{◌≡◌, ◌↔◌, ◌≤◌, ◌⊎◌, ℕ, List, IfOk, OnOk};
ghost use Rattle.std.specs.List.{IsAmong};
ghost use Rattle.apl_model.specs.Refusal as refusal;
ghost use Rattle.apl_model.specs.Script.{is_name_token};
ghost use Rattle.apl_model.specs.Refusal.{IsFirstIfAny};
ghost use Rattle.apl_defn.specs.NameRules.{IsRepeated, IsHeading, IsAssigned, IsErased, IsDeclared, IsTooDeep};
ghost use Rattle.apl_defn.specs.Occurrences.{at_most_one, IsNamed, IsWrong, IsMetAgain, IsAssignedFirst};

use crate::earliest::earlier;
use crate::name_sets::NameSet;
use crate::occurrences::{Occurrence, label_of, name_at};
use apl_base::{Cause, Name, NoMemory, Refusal};
use apl_model::{Line, Token, Word};
use apl_tree::Lookup;
use std::alloc::Global;

/// How many parentheses and brackets may be open at once.
const MOST_OPEN: u32 = 64;

/// The first name that a definition with this first line and body declares a second time. It takes time in proportion
/// to the tokens, times a logarithm.
pub(crate) fn repeated_name(
    alloc: Global,
    first: &Line,
    body: &[Line],
) -> Result<Option<Refusal>, NoMemory>
    ensures { IfOk result (IsFirstIfAny (IsRepeated first.now body.now)) }
{
    let mut names = NameSet::new(alloc);
    let mut found = None;
    for token in first.tokens.as_slice() {
        let repeated = met_again(alloc, &mut names, name_at(first.number, token))?;
        found = earlier(found, repeated);
    }
    for line in body {
        let repeated = met_again(alloc, &mut names, label_of(line))?;
        found = earlier(found, repeated);
    }
    Ok(found)
}

/// The refusal of a name that was met before. The name is met from now on.
fn met_again(
    alloc: Global,
    names: &mut NameSet,
    place: Option<Occurrence>,
) -> Result<Option<Refusal>, NoMemory>
    ensures met { IfOk result (IsFirstIfAny (IsMetAgain names.old (at_most_one place.entry))) }
    ensures names { OnOk result ((n : List ℕ) → IsAmong names.new n
        ↔ (IsAmong names.old n ⊎ IsNamed (at_most_one place.entry) n)) }
{
    let Some(place) = place else {
        return Ok(None);
    };
    if names.add(alloc, place.name)? {
        return Ok(None);
    }
    Ok(Some(Refusal {
        line: place.line,
        column: place.column,
        cause: Cause::DoubleName,
    }))
}

/// The first heading name of a line directly before `←`.
pub(crate) fn assigned_name(line: &Line, lookup: &Lookup) -> Option<Refusal>
    ensures { IsFirstIfAny (IsAssigned lookup.now line.now) result }
{
    let tokens = line.tokens.as_slice();
    let mut found = None;
    for from in 0..tokens.len() {
        found = earlier(found, assigned_first(line.number, &tokens[from..], lookup));
    }
    found
}

/// The refusal of a heading name directly before `←` at the beginning of tokens.
fn assigned_first(line: u32, tokens: &[Token], lookup: &Lookup) -> Option<Refusal>
    ensures { IsFirstIfAny (IsAssignedFirst lookup.now line tokens.now) result }
{
    match tokens {
        [name, arrow, ..] if arrow.is_glyph('←') => heading_at(name_at(line, name), lookup),
        _ => None,
    }
}

/// The refusal of a name that heads a definition.
fn heading_at(place: Option<Occurrence>, lookup: &Lookup) -> Option<Refusal>
    ensures { IsFirstIfAny (IsWrong (IsHeading lookup.now) (at_most_one place.entry)) result }
{
    let place = place?;
    lookup.arguments(place.name)?;
    Some(Refusal {
        line: place.line,
        column: place.column,
        cause: Cause::NameClass,
    })
}

/// The first heading name of a line that `)ERASE` names.
pub(crate) fn erased_name(line: &Line, lookup: &Lookup) -> Option<Refusal>
    ensures { IsFirstIfAny (IsErased lookup.now line.now) result }
{
    match line.tokens.as_slice() {
        [close, command, names @ ..] if close.is_glyph(')') && is_erase(command) => {
            heading_among(line.number, names, lookup)
        }
        _ => None,
    }
}

/// The first name among tokens that heads a definition.
fn heading_among(line: u32, tokens: &[Token], lookup: &Lookup) -> Option<Refusal>
    ensures { IsFirstIfAny
        (IsWrong (IsHeading lookup.now) (refusal.names_in line tokens.now)) result }
{
    let mut found = None;
    for token in tokens {
        found = earlier(found, heading_at(name_at(line, token), lookup));
    }
    found
}

/// Whether a token is the name of the command that erases.
fn is_erase(token: &Token) -> bool
    ensures { result ≡ is_name_token "ERASE" token.now }
{
    match &token.word {
        Word::Name { name } => name.as_str() == "ERASE",
        _ => false,
    }
}

/// The first heading name, other than its own, that a definition declares.
pub(crate) fn declared_name(
    own: &Name,
    first: &Line,
    body: &[Line],
    lookup: &Lookup,
) -> Option<Refusal>
    ensures { IsFirstIfAny (IsDeclared lookup.now own.now first.now body.now) result }
{
    let mut found = None;
    for token in first.tokens.as_slice() {
        found = earlier(
            found,
            other_heading(own, name_at(first.number, token), lookup),
        );
    }
    for line in body {
        found = earlier(found, other_heading(own, label_of(line), lookup));
    }
    found
}

/// The refusal of a name that heads another definition than this one's own.
fn other_heading(own: &Name, place: Option<Occurrence>, lookup: &Lookup) -> Option<Refusal>
    ensures { IsFirstIfAny (IsWrong (λ n. ¬ (n ≡ own.now)
        × IsHeading lookup.now n) (at_most_one place.entry)) result }
{
    let name = place?.name;
    if name.is(own) {
        return None;
    }
    heading_at(place, lookup)
}

/// The 65th parenthesis or bracket of a line that is open at once.
pub(crate) fn deep_token(line: &Line) -> Option<Refusal>
    ensures { IsFirstIfAny (IsTooDeep line.now) result }
{
    let mut depth = 0;
    for token in line.tokens.as_slice() {
        depth = depth_after(depth, token);
        if depth > MOST_OPEN {
            return Some(Refusal {
                line: line.number,
                column: token.from,
                cause: Cause::Deep,
            });
        }
    }
    None
}

/// How many parentheses and brackets are open after a token.
fn depth_after(depth: u32, token: &Token) -> u32
    requires { depth ≤ 64 }
    ensures { result ≡ refusal.depth_after depth token.now }
{
    match &token.word {
        Word::Glyph { glyph: '(' | '[' } => depth + 1,
        Word::Glyph { glyph: ')' | ']' } => depth.saturating_sub(1),
        _ => depth,
    }
}
