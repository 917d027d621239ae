//! The statement that the tokens of a line are, or its refusal.

ghost use Rattle.std.specs.Prelude.{◌≡◌, ◌≤◌, length, drop, IfOk};
ghost use Rattle.apl_model.proofs.Machine as machine;
ghost use Rattle.apl_model.specs.Grammar.{IsStatement};
ghost use Rattle.apl_model.specs.Mirror.{statement_of};
ghost use Rattle.apl_model.specs.Refusal as refusal;
ghost use Rattle.apl_model.specs.Spelling.{Spell, statement_spelling};
ghost use Rattle.apl_tree.specs.Condition.{AreTokensOf};
ghost use Rattle.apl_model.specs.ReadFaults.{IfRefused};
ghost use Rattle.apl_tree.specs.Outcome.{IsReading};

use crate::arguments::NameClasses;
use crate::lookups::Lookup;
use crate::reader::Reader;
use crate::sorts::classify;
use apl_base::{Cause, NoMemory, Place, Refusal};
use apl_model::{Classes, Line, ReadFault, Statement, Token};
use std::alloc::Global;

/// What tokens are: a statement, or none, with the column at which they stop being the beginning of
/// one.
#[derive(Drop)]
pub(crate) enum Reading {
    Done { statement: Statement },
    Stopped { column: u32 },
}

/// The statement of a line's tokens. A line without one is refused as `GRAMMAR`, at the first token
/// such that no statement begins with the tokens up to and including it, or one column past the
/// last token.
pub fn statement(alloc: Global, line: &Line, classes: &Classes) -> Result<Statement, ReadFault>
    requires short { length line.now.text ≤ 1000 }
    requires tokens { AreTokensOf line.now.text line.now.tokens }

    // The tree is one of the language, and spells the tokens at their places.
    ensures lawful { IfOk result (λ s. IsStatement classes.now.headings (statement_of s)) }
    ensures spells { IfOk result (λ s.
        Spell line.now.number (statement_spelling (statement_of s)) line.now.tokens) }

    // A refusal comes only where there is no such tree, and stands where the tokens stop being the
    // beginning of one.
    ensures refused { IfRefused result (λ r.
        ¬ (refusal.IsLawful refusal.by_itself classes.now.headings
        line.now.number line.now.tokens)) }
    ensures cause { IfRefused result (λ r. r.cause ≡ Cause.Grammar) }
    ensures line { IfRefused result (λ r. r.line ≡ line.now.number) }
    ensures column { IfRefused result (λ r.
        refusal.StopsAt refusal.by_itself classes.now.headings
        line.now.number line.now.tokens r.column) }
{
    statement_from(alloc, line, 0, classes)
}

/// The statement of a line's tokens from one of them on, over prepared classes of names. Tokens
/// that are none are refused as by `statement`.
pub fn statement_among(
    alloc: Global,
    line: &Line,
    from: usize,
    lookup: &Lookup,
) -> Result<Statement, ReadFault>
    requires short { length line.now.text ≤ 1000 }
    requires within { from ≤ length line.now.tokens }
    requires tokens { AreTokensOf line.now.text (drop from line.now.tokens) }
    ensures lawful { IfOk result (λ s. IsStatement lookup.now (statement_of s)) }
    ensures spells { IfOk result (λ s.
        Spell line.now.number (statement_spelling (statement_of s)) (drop from line.now.tokens)) }
    ensures refused { IfRefused result (λ r.
        ¬ (refusal.IsLawful refusal.by_itself lookup.now
        line.now.number (drop from line.now.tokens))) }
    ensures cause { IfRefused result (λ r. r.cause ≡ Cause.Grammar) }
    ensures line { IfRefused result (λ r. r.line ≡ line.now.number) }
    ensures column { IfRefused result (λ r.
        refusal.StopsAt refusal.by_itself lookup.now
        line.now.number (drop from line.now.tokens) r.column) }
{
    statement_from(alloc, line, from, lookup)
}

/// The statement of a line's tokens from one of them on.
fn statement_from<C: NameClasses>(
    alloc: Global,
    line: &Line,
    from: usize,
    classes: &C,
) -> Result<Statement, ReadFault>
    requires short { length line.now.text ≤ 1000 }
    requires within { from ≤ length line.now.tokens }
    requires tokens { AreTokensOf line.now.text (drop from line.now.tokens) }
    ensures lawful { IfOk result (λ s. IsStatement (C.headings classes.now) (statement_of s)) }
    ensures spells { IfOk result (λ s.
        Spell line.now.number (statement_spelling (statement_of s)) (drop from line.now.tokens)) }
    ensures refused { IfRefused result (λ r.
        ¬ (refusal.IsLawful refusal.by_itself (C.headings classes.now)
        line.now.number (drop from line.now.tokens))) }
    ensures cause { IfRefused result (λ r. r.cause ≡ Cause.Grammar) }
    ensures line { IfRefused result (λ r. r.line ≡ line.now.number) }
    ensures column { IfRefused result (λ r.
        refusal.StopsAt refusal.by_itself (C.headings classes.now)
        line.now.number (drop from line.now.tokens) r.column) }
{
    let _text = line.text.as_str();
    match read(alloc, line.number, &line.tokens.as_slice()[from..], classes) {
        Ok(Reading::Done { statement }) => Ok(statement),
        Ok(Reading::Stopped { column }) => Err(ReadFault::Refused {
            refusal: Refusal {
                line: line.number,
                column,
                cause: Cause::Grammar,
            },
        }),
        Err(NoMemory) => Err(ReadFault::NoMemory),
    }
}

/// What these tokens of the line of this number are.
pub(crate) fn read<C: NameClasses>(
    alloc: Global,
    number: u32,
    tokens: &[Token],
    classes: &C,
) -> Result<Reading, NoMemory>
    ensures { IfOk result (IsReading (C.headings classes.now) number tokens.now) }
{
    let mut reader = Reader::new(alloc);
    for token in tokens {
        let sort = classify(alloc, classes, &token.word)?;
        let place = Place {
            line: number,
            column: token.from,
        };
        match reader.take(alloc, sort, place)? {
            Some(next) => reader = next,
            None => return Ok(Reading::Stopped { column: token.from }),
        }
    }
    match reader.finish(alloc)? {
        Some(statement) => Ok(Reading::Done { statement }),
        None => Ok(Reading::Stopped {
            column: past_last(tokens),
        }),
    }
}

/// One column past the last token.
fn past_last(tokens: &[Token]) -> u32
    ensures { result ≡ refusal.past_last tokens.now }
{
    match tokens.last() {
        Some(token) => token.past,
        None => 1,
    }
}
