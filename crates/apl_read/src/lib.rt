//! Reads scripts: from bytes to lines with their tokens, with the first refusal of the bytes and characters.
#![tactic(auto)]

mod characters;
mod columns;
pub mod laws;
mod made;
mod numbers;
mod pieces;
mod quotes;
mod script_lines;
mod script_tokens;

pub use script_tokens::tokens;
