//! Tests of reductions and inner products, by public calls alone.
#![tactic(auto)]

mod lines;
mod products;
#[cfg(test)]
mod rows;
#[cfg(test)]
mod tests;

pub use lines::{Made, alike, reduced, scalar};
pub use products::{Product, answer_of};
