//! Reads the tokens of a line as a statement: its tree, or the place of its refusal.
//!
//! The reader goes over the tokens once, from left to right. It keeps what is open, and gives the
//! tree at the end.
#![tactic(auto)]

mod arguments;
mod begins;
mod brackets;
mod functions;
mod glyphs;
mod lookups;
mod opens;
mod operands;
mod reader;
mod sorts;
mod statements;
mod steps;
mod waits;

pub use lookups::Lookup;
pub use statements::{statement, statement_among};
