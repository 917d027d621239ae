//! The machine's steps between statements: commands.
#![tactic(auto)]

mod commands;
mod lines;

pub use commands::obey;
