//! The tables of a program: its functions by name, its lines by number.
#![tactic(auto)]

ghost use Rattle.std.specs.Prelude.{◌≡◌, IfOk, OnOk};
ghost use Rattle.apl_compile.specs.Tables.{codes_at, codes_for, HasBodies, HasFunctions, HasLines, PutsBody};

use crate::programs::Function;
use apl_base::NoMemory;
use apl_model::{OutlineBody, OutlineItem, OutlineLine};
use indexmap::IndexMap;
use std::alloc::Global;

// A line of a body: the item that defines the function, and the line's number in the body, from 0.
#[derive(Clone, Copy, Debug, PartialEq, Eq)]
pub(crate) struct Standing {
    pub(crate) item: usize,
    pub(crate) line: usize,
}

// The functions by name. Of two definitions of one name the first counts.
pub(crate) fn functions_by_name(
    alloc: Global,
    items: &[OutlineItem],
    codes: usize,
) -> Result<IndexMap<String, Function>, NoMemory>
    requires { codes_for items.now ≡ codes }
    ensures { IfOk result (λ table. HasFunctions table 0 0 items.now) }
{
    let mut table = IndexMap::new(alloc);
    let mut code = codes;
    for item in (0..items.len()).rev() {
        code -= codes_at(&items[item]);
        if let OutlineItem::Definition { header, .. } = &items[item] {
            table.insert(
                String::from_str(alloc, header.f.as_str())?,
                Function { item, code },
            )?;
        }
    }
    Ok(table)
}

// How many codes an item has.
fn codes_at(item: &OutlineItem) -> usize
    ensures { result ≡ codes_at item.now }
{
    match item {
        OutlineItem::Statement { .. } => 1,
        OutlineItem::Command { .. } => 0,
        OutlineItem::Definition { body, .. } => body.len(),
    }
}

// The places of lines by their numbers. Of two lines of one number the first counts.
pub(crate) fn lines_by_number(
    alloc: Global,
    lines: &[OutlineLine],
) -> Result<IndexMap<u32, usize>, NoMemory>
    ensures { IfOk result (λ table. HasLines table 0 lines.now) }
{
    let mut table = IndexMap::new(alloc);
    for place in (0..lines.len()).rev() {
        table.insert(lines[place].number, place)?;
    }
    Ok(table)
}

// The lines of all bodies by their numbers. Of two lines of one number the first counts.
pub(crate) fn bodies_by_number(
    alloc: Global,
    items: &[OutlineItem],
) -> Result<IndexMap<u32, Standing>, NoMemory>
    ensures { IfOk result (λ table. HasBodies table 0 items.now) }
{
    let mut table = IndexMap::new(alloc);
    for item in (0..items.len()).rev() {
        if let OutlineItem::Definition { body, .. } = &items[item] {
            note_body(item, body.as_slice(), &mut table)?;
        }
    }
    Ok(table)
}

// Puts the lines of an item's body into the table.
fn note_body(
    item: usize,
    body: &[OutlineBody],
    table: &mut IndexMap<u32, Standing>,
) -> Result<(), NoMemory>
    ensures { OnOk result (PutsBody table.old table.new item 0 body.now) }
{
    for line in (0..body.len()).rev() {
        table.insert(body[line].line, Standing { item, line })?;
    }
    Ok(())
}
