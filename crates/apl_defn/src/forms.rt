//! The first pass over a script: the forms of its definitions, and the names that come twice.
ghost use Rattle.std.specs.Prelude.{◌≡◌, ◌++◌, ◌∷◌, ℕ, ◌↔◌, ◌⊎◌, List, [], length, slice_get, true, IfOk, OnOk};
ghost use Rattle.std.specs.List.{IsAmong};
ghost use Rattle.std.specs.Option.{option_copied};
ghost use Rattle.apl_model.specs.Refusal as refusal;
ghost use Rattle.apl_model.specs.Script.{parts, defined, Part as ScriptPart, opens, IsHeadOf};
ghost use Rattle.apl_model.specs.Spelling.{before_own_name};
ghost use Rattle.apl_model.specs.declared.tokens.Line.{Line as GivenLine};
ghost use Rattle.apl_model.specs.Refusal.{IsFirstIfAny};
ghost use Rattle.apl_defn.specs.PartRefusals as refused;
ghost use Rattle.apl_defn.specs.Parts.{part_of};
ghost use Rattle.apl_defn.specs.Passes.{IsReadPart, AreForms};
ghost use Rattle.apl_defn.specs.Reading.{IsReadLine};

use crate::earliest::earlier;
use crate::headers::read_header;
use crate::line_faults::LineFault;
use crate::name_sets::NameSet;
use crate::names::repeated_name;
use crate::parts::{Part, Parts, closes_definition};
use apl_base::{Cause, NoMemory, Refusal};
use apl_model::{Header, Line, Token};
use std::alloc::Global;

/// What the first pass over a script finds: the first refusal of the form of its definitions or of a name that comes
/// twice, and, where there is none, the headers of its definitions.
#[derive(Drop)]
pub(crate) struct Forms {
    pub(crate) earliest: Option<Refusal>,
    pub(crate) headers: Vec<Header>,
    headed: NameSet,
}

/// The refusal of a line for its form.
fn header_refusal(line: &Line, column: u32) -> Refusal
    ensures { result ≡ refusal.refusal Cause.Header line.now.number column }
{
    Refusal {
        line: line.number,
        column,
        cause: Cause::Header,
    }
}

/// A `∇` alone, outside definitions.
fn lone_nabla(line: &Line) -> Option<Refusal>
    ensures { IsFirstIfAny (refused.IsLone line.now) result }
{
    match line.tokens.as_slice() {
        [only] if only.is_glyph('∇') => Some(header_refusal(line, only.past)),
        _ => None,
    }
}

/// In a definition, a line that begins with `∇` and has more tokens.
fn nested_line(line: &Line) -> Option<Refusal>
    ensures { IsFirstIfAny (refused.IsNested line.now) result }
{
    match line.tokens.as_slice() {
        [nabla, next, ..] if nabla.is_glyph('∇') => Some(header_refusal(line, next.from)),
        _ => None,
    }
}

/// The first such line of a body.
fn nested_lines(body: &[Line]) -> Option<Refusal>
    ensures { IsFirstIfAny (refused.OfSome refused.IsNested body.now) result }
{
    let mut earliest = None;
    for line in body {
        earliest = earlier(earliest, nested_line(line));
    }
    earliest
}

/// A definition that no line closes.
fn open_definition(first: &Line, last: Option<&Line>) -> Option<Refusal>
    ensures { IsFirstIfAny (refused.IsNeverClosed first.now (option_copied last.entry)) result }
{
    match (first.tokens.as_slice(), last) {
        ([nabla, ..], None) => Some(Refusal {
            line: first.number,
            column: nabla.from,
            cause: Cause::OpenDefinition,
        }),
        _ => None,
    }
}

/// The token of the function's own name in the first line of a definition with this header.
fn own_name<'a>(first: &'a Line, header: &Header) -> Option<&'a Token>
    ensures { option_copied result
        ≡ slice_get first.now.tokens (length (before_own_name header.now)) }
{
    let result = if header.result.is_some() { 2 } else { 0 };
    let left = if header.left.is_some() { 1 } else { 0 };
    first.tokens.get(1 + result + left)
}

/// The second heading of a function, after these names that were headed. Its own is added.
fn second_heading(
    alloc: Global,
    headed: &mut NameSet,
    first: &Line,
    header: &Header,
) -> Result<Option<Refusal>, NoMemory>
    requires { IsHeadOf first.now header.now }
    ensures second { IfOk result (λ second. (ps : List ScriptPart)
        → ((n : List ℕ) → IsAmong headed.old n ↔ refusal.Heads ps n)
        → IsFirstIfAny (refused.IsSecondHeading ps first.now) second) }
    ensures headed { OnOk result ((n : List ℕ) → IsAmong headed.new n
        ↔ ((n ≡ header.now.f) ⊎ IsAmong headed.old n)) }
{
    if headed.add(alloc, &header.f)? {
        return Ok(None);
    }
    match own_name(first, header) {
        Some(own) => Ok(Some(Refusal {
            line: first.number,
            column: own.from,
            cause: Cause::DoubleName,
        })),
        None => Ok(None),
    }
}

impl Forms {
    /// Of no parts.
    fn new(alloc: Global) -> Forms
        ensures { AreForms [] result }
    {
        Forms {
            earliest: None,
            headers: Vec::new(alloc),
            headed: NameSet::new(alloc),
        }
    }

    /// Goes over one more part.
    fn add(&mut self, alloc: Global, part: Part) -> Result<(), NoMemory>
        requires { IsReadPart (part_of part) }
        ensures { OnOk result ((ps : List ScriptPart) → AreForms ps self.old
            → AreForms (ps ++ part_of part.entry ∷ []) self.new) }
    {
        match part {
            Part::Alone { line } => {
                self.earliest = earlier(self.earliest, lone_nabla(line));
                Ok(())
            }
            Part::Defined { first, body, last } => self.add_definition(alloc, first, body, last),
        }
    }

    /// Goes over a definition.
    fn add_definition(
        &mut self,
        alloc: Global,
        first: &Line,
        body: &[Line],
        last: Option<&Line>,
    ) -> Result<(), NoMemory>
        requires read { IsReadLine first.now }
        requires opens { opens first.now.tokens ≡ true }
        ensures { OnOk result ((ps : List ScriptPart) → AreForms ps self.old
            → AreForms (ps ++ defined first.now body.now (option_copied last.entry) ∷ []) self.new) }
    {
        let form = earlier(nested_lines(body), open_definition(first, last));
        match read_header(alloc, first) {
            Ok(header) => {
                let repeated = repeated_name(alloc, first, body)?;
                let second = second_heading(alloc, &mut self.headed, first, &header)?;
                self.headers.push(header)?;
                let names = earlier(repeated, second);
                self.earliest = earlier(self.earliest, earlier(form, names));
                Ok(())
            }
            Err(LineFault::Stopped { column }) => {
                let refusal = header_refusal(first, column);
                self.earliest = earlier(self.earliest, earlier(form, Some(refusal)));
                Ok(())
            }
            Err(LineFault::NoMemory) => Err(NoMemory),
        }
    }
}

/// What the first pass over the lines of a script finds.
pub(crate) fn read_forms(alloc: Global, lines: &[Line]) -> Result<Forms, NoMemory>
    requires { (l : GivenLine) → IsAmong lines.now l → IsReadLine l }
    ensures { IfOk result (AreForms (parts lines.now)) }
{
    let mut forms = Forms::new(alloc);
    let mut parts = Parts::of(lines);
    while let Some(part) = parts.next() {
        forms.add(alloc, part)?;
    }
    Ok(forms)
}
