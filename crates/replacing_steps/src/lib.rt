//! Indexed assignment as a step of the machine: cells of a name's array are written in place.
#![tactic(auto)]

mod checks;
mod ready;
mod replacing;
mod walks;
mod writes;

pub use replacing::replace;
