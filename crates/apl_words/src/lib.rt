//! The words of the command line, and the script of the workload that they may ask for.
#![tactic(auto)]

mod laws;
mod numbers;
mod options;
mod workloads;

pub use laws::worked_words;
pub use options::{Options, WordsFault, read_words};
pub use workloads::workload;

#[cfg(test)]
mod tests;
