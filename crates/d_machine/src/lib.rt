//! The machine: statements by their code, instruction after instruction, over pending expressions.
#![tactic(auto)]

mod answers;
mod breaks;
mod calling;
mod laws;
mod lines;
mod performing;
mod running;
mod statements;
mod turns;

pub use answers::{Step, Stop};
pub use laws::one_answer;
pub use statements::run_statement;
