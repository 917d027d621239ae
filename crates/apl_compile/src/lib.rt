//! From the trees of a script to code: the instructions of each statement in the order of evaluation.
#![tactic(auto)]

mod codes;
mod compiler;
mod examples;
mod expressions;
mod laws;
mod programs;
mod scripts;
mod tables;
#[cfg(test)]
mod tests;

pub use codes::{Code, Instruction, Op};
pub use compiler::compile;
pub use examples::{examples_of_code, examples_of_programs, examples_of_statements};
pub use laws::{
    codes_are_lawful, codes_do, immediate_is_run, one_report, programs_are_coded, programs_do,
};
pub use programs::{Function, Program};
pub use scripts::compile_script;
