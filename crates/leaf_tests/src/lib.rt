//! Each step on leaves once with ample memory, over operands that are not stored.
#![tactic(auto)]

mod operands;
#[cfg(test)]
mod tests;

pub use operands::{counting, everywhere, newest_cells, push_unstored};
