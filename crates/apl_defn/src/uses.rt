//! The second pass over a script: the uses of names, depth, and the grammar of statements.
ghost use Rattle.std.specs.Prelude.{◌≡◌, ◌++◌, ◌∷◌, ℕ, List, [], Some, None, IfOk, OnOk};
ghost use Rattle.std.specs.List.{IsAmong};
ghost use Rattle.apl_model.specs.Refusal as refusal;
ghost use Rattle.apl_model.specs.Script.{parts, alone, defined, Part as ScriptPart, IsHeadOf};
ghost use Rattle.apl_model.specs.declared.tokens.Line.{Line as GivenLine};
ghost use Rattle.apl_defn.specs.Parts.{part_of};
ghost use Rattle.apl_defn.specs.Passes.{AreHeaders, IsBody, AreUses};
ghost use Rattle.apl_defn.specs.Reading.{IsReadLine};

use crate::earliest::earlier;
use crate::line_faults::LineFault;
use crate::names::{assigned_name, declared_name, deep_token, erased_name};
use crate::parts::{Part, Parts};
use crate::statement_lines::{read_body_line, read_outside};
use apl_base::{Cause, NoMemory, Refusal};
use apl_model::{BodyLine, Definition, Header, Line, ScriptItem};
use apl_tree::Lookup;
use sqlite_items::Items;
use std::alloc::Global;
use std::collections::VecDeque;

/// What is found in the body of a definition: the first refusal of its lines, and, where there is none, its lines.
#[derive(Drop)]
pub(crate) struct Body {
    earliest: Option<Refusal>,
    lines: Vec<BodyLine>,
}

/// What the second pass over a script finds: the first refusal of a name, of depth or of grammar, and, where there is
/// none, the items of the script.
#[derive(Drop)]
pub(crate) struct Uses {
    pub(crate) earliest: Option<Refusal>,
    pub(crate) items: Vec<ScriptItem>,
}

/// The refusal of a line for its grammar.
fn grammar_refusal(line: &Line, column: u32) -> Refusal
    ensures { result ≡ refusal.refusal Cause.Grammar line.now.number column }
{
    Refusal {
        line: line.number,
        column,
        cause: Cause::Grammar,
    }
}

impl Body {
    /// Of no lines.
    fn new(alloc: Global, lookup: &Lookup) -> Body
        ensures { IsBody lookup.now [] result }
    {
        Body {
            earliest: None,
            lines: Vec::new(alloc),
        }
    }

    /// Goes over one more line.
    fn add(&mut self, alloc: Global, line: &Line, lookup: &Lookup) -> Result<(), NoMemory>
        requires { IsReadLine line.now }
        ensures { OnOk result ((ls : List GivenLine) → IsBody lookup.now ls self.old
            → IsBody lookup.now (ls ++ line.now ∷ []) self.new) }
    {
        let refusal = earlier(assigned_name(line, lookup), deep_token(line));
        match read_body_line(alloc, line, lookup) {
            Ok(read) => {
                self.lines.push(read)?;
                self.earliest = earlier(self.earliest, refusal);
                Ok(())
            }
            Err(LineFault::Stopped { column }) => {
                let stopped = grammar_refusal(line, column);
                self.earliest = earlier(self.earliest, earlier(refusal, Some(stopped)));
                Ok(())
            }
            Err(LineFault::NoMemory) => Err(NoMemory),
        }
    }
}

/// What is found in the lines of a body.
fn read_body(alloc: Global, lines: &[Line], lookup: &Lookup) -> Result<Body, NoMemory>
    requires { (l : GivenLine) → IsAmong lines.now l → IsReadLine l }
    ensures { IfOk result (IsBody lookup.now lines.now) }
{
    let mut body = Body::new(alloc, lookup);
    for line in lines {
        body.add(alloc, line, lookup)?;
    }
    Ok(body)
}

impl Uses {
    /// Of no parts.
    fn new(alloc: Global, lookup: &Lookup) -> Uses
        ensures { AreUses lookup.now [] result }
    {
        Uses {
            earliest: None,
            items: Vec::new(alloc),
        }
    }

    /// Goes over one more line outside definitions.
    fn add_outside(&mut self, alloc: Global, line: &Line, lookup: &Lookup) -> Result<(), NoMemory>
        requires { IsReadLine line.now }
        ensures { OnOk result ((ps : List ScriptPart) → AreUses lookup.now ps self.old
            → AreUses lookup.now (ps ++ alone line.now ∷ []) self.new) }
    {
        let names = earlier(assigned_name(line, lookup), erased_name(line, lookup));
        let refusal = earlier(names, deep_token(line));
        match read_outside(alloc, line, lookup) {
            Ok(item) => {
                self.items.push(item)?;
                self.earliest = earlier(self.earliest, refusal);
                Ok(())
            }
            Err(LineFault::Stopped { column }) => {
                let stopped = grammar_refusal(line, column);
                self.earliest = earlier(self.earliest, earlier(refusal, Some(stopped)));
                Ok(())
            }
            Err(LineFault::NoMemory) => Err(NoMemory),
        }
    }

    /// Goes over one more definition.
    fn add_definition(
        &mut self,
        alloc: Global,
        header: Header,
        first: &Line,
        body: &[Line],
        last: &Line,
        lookup: &Lookup,
    ) -> Result<(), NoMemory>
        requires head { IsHeadOf first.now header }
        requires read { (l : GivenLine) → IsAmong body.now l → IsReadLine l }
        ensures { OnOk result ((ps : List ScriptPart) → AreUses lookup.now ps self.old
            → AreUses lookup.now (ps ++ defined first.now body.now (Some last.now) ∷ []) self.new) }
    {
        let declared = declared_name(&header.f, first, body, lookup);
        let Body { earliest, lines } = read_body(alloc, body, lookup)?;
        let definition = Definition {
            opened: first.number,
            closed: last.number,
            header,
            body: Items::from_vec(lines),
        };
        self.items.push(ScriptItem::Definition { definition })?;
        self.earliest = earlier(self.earliest, earlier(declared, earliest));
        Ok(())
    }
}

/// What the second pass over the lines of a script finds, whose definitions have these headers, and are closed.
pub(crate) fn read_uses(
    alloc: Global,
    lines: &[Line],
    mut headers: VecDeque<Header>,
    lookup: &Lookup,
) -> Result<Uses, NoMemory>
    requires read { (l : GivenLine) → IsAmong lines.now l → IsReadLine l }
    requires heads { AreHeaders (parts lines.now) headers.items }
    requires closed { (first : GivenLine) (body : List GivenLine)
        → ¬ (IsAmong (parts lines.now) (defined first body None)) }
    ensures { IfOk result (AreUses lookup.now (parts lines.now)) }
{
    let mut uses = Uses::new(alloc, lookup);
    let mut parts = Parts::of(lines);
    while let Some(part) = parts.next() {
        match part {
            Part::Alone { line } => uses.add_outside(alloc, line, lookup)?,
            Part::Defined { first, body, last } => match (headers.pop_front(), last) {
                (Some(header), Some(last)) => {
                    uses.add_definition(alloc, header, first, body, last, lookup)?
                }
                _ => unreachable!(),
            },
        }
    }
    Ok(uses)
}
