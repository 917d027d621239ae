//! The walk over all indices of a shape.
#![tactic(auto)]

mod laws;
mod odometer;

pub use laws::{item_laws, walk_examples, walk_laws};
pub use odometer::Odometer;

#[cfg(test)]
mod tests;
