//! Lines with a statement: outside definitions, and in bodies.
ghost use Rattle.std.specs.Prelude.{◌≡◌, ◌==◌, ◌≤◌, Some, None, true, false, length, drop, IfOk};
ghost use Rattle.std.specs.Option.{option_map};
ghost use Rattle.apl_model.specs.Grammar.{IsStatement};
ghost use Rattle.apl_model.specs.Mirror.{body_line_of, item_of, statement_of};
ghost use Rattle.apl_model.specs.Refusal as refusal;
ghost use Rattle.apl_model.specs.Script.{IsBodyLine, IsItem, alone};
ghost use Rattle.apl_model.specs.Spelling.{Spell, statement_spelling};
ghost use Rattle.apl_tree.specs.Condition.{AreTokensOf};
ghost use Rattle.apl_defn.specs.LineStart as start;
ghost use Rattle.apl_defn.specs.Reading.{IsReadLine, IfStopped};

use crate::commands::read_command;
use crate::line_faults::LineFault;
use apl_base::Name;
use apl_model::{BodyLine, Line, ReadFault, ScriptItem, Statement, Token};
use apl_tree::{Lookup, statement_among};
use std::alloc::Global;

/// The statement or command that a line outside definitions is, or the column where it stops being one.
pub(crate) fn read_outside(
    alloc: Global,
    line: &Line,
    lookup: &Lookup,
) -> Result<ScriptItem, LineFault>
    requires { IsReadLine line.now }
    ensures item { IfOk result (λ item. IsItem lookup.now (alone line.now) (item_of item)) }
    ensures stopped { IfStopped result
        (refusal.StopsAt refusal.outside lookup.now line.now.number line.now.tokens) }
{
    if begins_command(line.tokens.as_slice()) {
        command_item(alloc, line, lookup)
    } else {
        statement_item(alloc, line, lookup)
    }
}

/// The command that a line outside definitions is which begins with `)`.
fn command_item(alloc: Global, line: &Line, lookup: &Lookup) -> Result<ScriptItem, LineFault>
    requires read { IsReadLine line.now }
    requires begins { start.begins_command line.now.tokens ≡ true }
    ensures item { IfOk result (λ item. IsItem lookup.now (alone line.now) (item_of item)) }
    ensures stopped { IfStopped result
        (refusal.StopsAt refusal.outside lookup.now line.now.number line.now.tokens) }
{
    let command = read_command(alloc, line)?;
    Ok(ScriptItem::Command {
        line: line.number,
        command,
    })
}

/// The statement that a line outside definitions is which doesn't begin with `)`.
fn statement_item(alloc: Global, line: &Line, lookup: &Lookup) -> Result<ScriptItem, LineFault>
    requires read { IsReadLine line.now }
    requires begins { start.begins_command line.now.tokens ≡ false }
    ensures item { IfOk result (λ item. IsItem lookup.now (alone line.now) (item_of item)) }
    ensures stopped { IfStopped result
        (refusal.StopsAt refusal.outside lookup.now line.now.number line.now.tokens) }
{
    let statement = read_statement(alloc, line, 0, lookup)?;
    Ok(ScriptItem::Statement {
        line: line.number,
        statement,
    })
}

/// The label and the statement of a line of a body, or the column where it stops being one.
pub(crate) fn read_body_line(
    alloc: Global,
    line: &Line,
    lookup: &Lookup,
) -> Result<BodyLine, LineFault>
    requires { IsReadLine line.now }
    ensures body { IfOk result (λ body. IsBodyLine lookup.now line.now (body_line_of body)) }
    ensures stopped { IfStopped result
        (refusal.StopsAt refusal.in_body lookup.now line.now.number line.now.tokens) }
{
    match label_of(line.tokens.as_slice(), lookup) {
        Some(label) => labelled_line(alloc, line, label, lookup),
        None => unlabelled_line(alloc, line, lookup),
    }
}

/// The line of a body with this label.
fn labelled_line(
    alloc: Global,
    line: &Line,
    label: &Name,
    lookup: &Lookup,
) -> Result<BodyLine, LineFault>
    requires read { IsReadLine line.now }
    requires label { start.label_of lookup.now line.now.tokens ≡ Some label.now }
    ensures body { IfOk result (λ body. IsBodyLine lookup.now line.now (body_line_of body)) }
    ensures stopped { IfStopped result
        (refusal.StopsAt refusal.in_body lookup.now line.now.number line.now.tokens) }
{
    let _text = line.text.as_str();
    let label = label.copy(alloc)?;
    let statement = read_statement(alloc, line, 2, lookup)?;
    Ok(BodyLine {
        line: line.number,
        label: Some(label),
        statement,
    })
}

/// The line of a body without a label.
fn unlabelled_line(alloc: Global, line: &Line, lookup: &Lookup) -> Result<BodyLine, LineFault>
    requires read { IsReadLine line.now }
    requires label { start.label_of lookup.now line.now.tokens ≡ None }
    ensures body { IfOk result (λ body. IsBodyLine lookup.now line.now (body_line_of body)) }
    ensures stopped { IfStopped result
        (refusal.StopsAt refusal.in_body lookup.now line.now.number line.now.tokens) }
{
    let _text = line.text.as_str();
    let statement = read_statement(alloc, line, 0, lookup)?;
    Ok(BodyLine {
        line: line.number,
        label: None,
        statement,
    })
}

/// The statement of a line's tokens from one of them on, or the column where they stop being one.
fn read_statement(
    alloc: Global,
    line: &Line,
    from: usize,
    lookup: &Lookup,
) -> Result<Statement, LineFault>
    requires short { length line.now.text ≤ 1000 }
    requires within { from ≤ length line.now.tokens }
    requires tokens { AreTokensOf line.now.text (drop from line.now.tokens) }
    ensures lawful { IfOk result (λ s. IsStatement lookup.now (statement_of s)) }
    ensures spells { IfOk result (λ s. Spell line.now.number (statement_spelling (statement_of s))
        (drop from line.now.tokens)) }
    ensures stopped { IfStopped result
        (refusal.StopsAt refusal.by_itself lookup.now line.now.number (drop from line.now.tokens)) }
{
    match statement_among(alloc, line, from, lookup) {
        Ok(statement) => Ok(statement),
        Err(ReadFault::Refused { refusal }) => Err(LineFault::Stopped {
            column: refusal.column,
        }),
        Err(ReadFault::NoMemory) => Err(LineFault::NoMemory),
    }
}

/// Whether tokens begin with `)`, as those of a command do.
fn begins_command(tokens: &[Token]) -> bool
    ensures { result ≡ start.begins_command tokens.now }
{
    match tokens {
        [first, ..] => first.is_glyph(')'),
        [] => false,
    }
}

/// The label that tokens begin with: a name directly before `:`, where it heads no definition.
fn label_of<'a>(tokens: &'a [Token], lookup: &Lookup) -> Option<&'a Name>
    ensures { option_map (λ name. name.now) result ≡ start.label_of lookup.now tokens.now }
{
    match tokens {
        [first, second, ..] if second.is_glyph(':') => free_name(first, lookup),
        _ => None,
    }
}

/// The name that a token is, where it heads no definition.
fn free_name<'a>(token: &'a Token, lookup: &Lookup) -> Option<&'a Name>
    ensures { option_map (λ name. name.now) result ≡ start.free_name lookup.now token.now }
{
    let name = token.name()?;
    match lookup.arguments(name) {
        Some(_) => None,
        None => Some(name),
    }
}
