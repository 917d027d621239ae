//! The compiled program of a script.
#![tactic(auto, using(apl_model::proofs::Bridge::bridges))]

ghost use Rattle.std.specs.Prelude.{◌≡◌, ◌++◌, map, IfOk, OnOk};
ghost use Rattle.apl_model.specs.Mirror.{body_line_of, item_of, script_of};
ghost use Rattle.apl_compile.specs.Program.{codes_in, codes_of, compiled, outline_body, outline_item, outline_line, program_of};

use crate::codes::Code;
use crate::compiler::compiled_on;
use crate::programs::Program;
use crate::tables::{bodies_by_number, functions_by_name, lines_by_number};
use apl_base::NoMemory;
use apl_model::{
    BodyLine, Definition, Line, Outline, OutlineBody, OutlineItem, OutlineLine, Script, ScriptItem,
};
use sqlite_items::Items;
use std::alloc::Global;

/// The compiled program of a script: its outline, the code of each statement in the order of lines, and what its
/// look-ups need. The trees are gone.
pub fn compile_script(alloc: Global, script: Script) -> Result<Program, NoMemory>
    ensures { IfOk result (λ p. p ≡ program_of (script_of script)) }
{
    let codes = compiled_items(alloc, script.items.as_slice())?;
    let Script { lines, items } = script;
    let outline = Outline {
        lines: outline_lines(alloc, lines)?,
        items: outline_items(alloc, items)?,
    };
    let functions = functions_by_name(alloc, outline.items.as_slice(), codes.len())?;
    let lines = lines_by_number(alloc, outline.lines.as_slice())?;
    let bodies = bodies_by_number(alloc, outline.items.as_slice())?;
    Ok(Program {
        outline,
        codes,
        functions,
        lines,
        bodies,
    })
}

// The codes of items, in order.
fn compiled_items(alloc: Global, items: &[ScriptItem]) -> Result<Items<Code>, NoMemory>
    ensures { IfOk result (λ codes. codes ≡ codes_of (map item_of items.now)) }
{
    let mut codes = Items::new(alloc);
    for item in items {
        compile_item(alloc, item, &mut codes)?;
    }
    Ok(codes)
}

// Puts the codes of an item behind those that are there.
fn compile_item(alloc: Global, item: &ScriptItem, codes: &mut Items<Code>) -> Result<(), NoMemory>
    ensures { OnOk result (codes.new ≡ codes.old ++ codes_in (item_of item.now)) }
{
    match item {
        ScriptItem::Statement { line, statement } => {
            codes.push(compiled_on(alloc, *line, statement)?)?;
            Ok(())
        }
        ScriptItem::Command { .. } => Ok(()),
        ScriptItem::Definition { definition } => {
            compile_body(alloc, definition.body.as_slice(), codes)
        }
    }
}

// Puts the codes of a body's lines behind those that are there.
fn compile_body(alloc: Global, body: &[BodyLine], codes: &mut Items<Code>) -> Result<(), NoMemory>
    ensures { OnOk result
        (codes.new
        ≡ codes.old ++ map (λ l. compiled l.line l.statement) (map body_line_of body.now)) }
{
    for line in body {
        codes.push(compiled_on(alloc, line.line, &line.statement)?)?;
    }
    Ok(())
}

// The lines without their tokens.
fn outline_lines(alloc: Global, lines: Items<Line>) -> Result<Items<OutlineLine>, NoMemory>
    ensures { IfOk result (λ ls. ls ≡ map outline_line lines) }
{
    let mut left = lines;
    let mut backward = Vec::new(alloc);
    while let Some(line) = left.pop() {
        let Line { number, text, .. } = line;
        backward.push(OutlineLine { number, text })?;
    }
    backward.reverse();
    Ok(Items::from_vec(backward))
}

// The items without their trees.
fn outline_items(alloc: Global, items: Items<ScriptItem>) -> Result<Items<OutlineItem>, NoMemory>
    ensures { IfOk result (λ is. is ≡ map outline_item (map item_of items)) }
{
    let mut left = items;
    let mut backward = Vec::new(alloc);
    while let Some(item) = left.pop() {
        backward.push(outline_item(alloc, item)?)?;
    }
    backward.reverse();
    Ok(Items::from_vec(backward))
}

// An item without its trees.
fn outline_item(alloc: Global, item: ScriptItem) -> Result<OutlineItem, NoMemory>
    ensures { IfOk result (λ i. i ≡ outline_item (item_of item)) }
{
    match item {
        ScriptItem::Statement { line, .. } => Ok(OutlineItem::Statement { line }),
        ScriptItem::Command { line, command } => Ok(OutlineItem::Command { line, command }),
        ScriptItem::Definition { definition } => {
            let Definition {
                opened,
                closed,
                header,
                body,
            } = definition;
            let body = outline_body(alloc, body)?;
            Ok(OutlineItem::Definition {
                opened,
                closed,
                header,
                body,
            })
        }
    }
}

// The lines of a body without their trees.
fn outline_body(alloc: Global, body: Items<BodyLine>) -> Result<Items<OutlineBody>, NoMemory>
    ensures { IfOk result (λ ls. ls ≡ map outline_body (map body_line_of body)) }
{
    let mut left = body;
    let mut backward = Vec::new(alloc);
    while let Some(line) = left.pop() {
        let BodyLine { line, label, .. } = line;
        backward.push(OutlineBody { line, label })?;
    }
    backward.reverse();
    Ok(Items::from_vec(backward))
}
