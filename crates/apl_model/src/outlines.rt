//! Outlines: a script without its trees and tokens.

use crate::scripts::{Command, Header};
use crate::texts::Text;
use apl_base::Name;
use sqlite_items::Items;

/// A line of the script: its number and its text.
#[derive(Drop)]
pub struct OutlineLine {
    pub number: u32,
    pub text: Text,
}

/// A line of a body: its number in the script, and its label.
#[derive(Drop)]
pub struct OutlineBody {
    pub line: u32,
    pub label: Option<Name>,
}

/// An item of a script without its trees.
#[derive(Drop)]
pub enum OutlineItem {
    Statement {
        line: u32,
    },
    Command {
        line: u32,
        command: Command,
    },
    Definition {
        opened: u32,
        closed: u32,
        header: Header,
        body: Items<OutlineBody>,
    },
}

/// A script without its trees and tokens.
#[derive(Drop)]
pub struct Outline {
    pub lines: Items<OutlineLine>,
    pub items: Items<OutlineItem>,
}
