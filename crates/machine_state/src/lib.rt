//! The state of the machine, what it stands for, and the steps that change it by one entry each.
#![tactic(auto)]

mod assigning;
mod entries;
mod machines;
mod names;

pub use machines::Machine;
