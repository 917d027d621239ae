//! The interval rules: from what the arguments of a scalar function lie in, what its values lie in,
//! and whether it is defined at all of them.
#![tactic(auto)]

mod answers;
mod calls;
mod examples;
mod laws;
mod numbers;
mod rows;
mod sides;
#[cfg(test)]
mod tests;

pub use calls::{range1, range2};
pub use examples::{arithmetic_examples, monadic_examples, truth_examples};
pub use laws::{intervals_nest, members_of_sides, rules_are_monotone};
pub use sides::{Ranged, Side};
