//! The run of a whole script over a machine: its statements and commands in order, with their reports.
#![tactic(auto)]

mod ends;
mod items;
mod programs;

pub use ends::End;
pub use programs::run_program;
