//! Tests of selections and subscripts as the machine's steps, over entries.
#![tactic(auto)]

mod desks;
#[cfg(test)]
mod tables;
#[cfg(test)]
mod tests;

pub use desks::{Desk, Newest, Step};
