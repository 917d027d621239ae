//! The stack of pending expressions: a list of segments, the oldest first.
#![tactic(auto)]

mod laws;
mod stacks;
#[cfg(test)]
mod tests;

pub use laws::stack_laws;
pub use stacks::Stack;
