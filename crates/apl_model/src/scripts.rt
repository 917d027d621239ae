//! Scripts: their items, definitions and commands.

use crate::tokens::Line;
use crate::trees::Statement;
use apl_base::{Cell, Name};
use sqlite_items::Items;

/// The head of a definition: `result←left f right`, then the locals.
#[derive(Drop)]
pub struct Header {
    pub f: Name,
    pub result: Option<Name>,
    pub left: Option<Name>,
    pub right: Option<Name>,
    pub locals: Items<Name>,
}

/// A line of a definition's body: `label:statement`, and the number of its line in the script.
#[derive(Drop)]
pub struct BodyLine {
    pub line: u32,
    pub label: Option<Name>,
    pub statement: Statement,
}

/// A definition: the lines of its two `∇`, its header, and its body.
#[derive(Drop)]
pub struct Definition {
    pub opened: u32,
    pub closed: u32,
    pub header: Header,
    pub body: Items<BodyLine>,
}

/// A command: `)VARS`, `)FNS`, `)ERASE` and names, or `)ORIGIN` and 0 or 1.
#[derive(Drop)]
pub enum Command {
    Vars,
    Fns,
    Erase { names: Items<Name> },
    Origin { origin: Cell },
}

/// An item of a script. A line outside definitions without tokens is none.
#[derive(Drop)]
pub enum ScriptItem {
    Statement { line: u32, statement: Statement },
    Command { line: u32, command: Command },
    Definition { definition: Definition },
}

/// A script: all its lines, and its items in order.
#[derive(Drop)]
pub struct Script {
    pub lines: Items<Line>,
    pub items: Items<ScriptItem>,
}
