//! Reductions, outer and inner products of whole arrays.
#![tactic(auto)]

mod faults;
mod folds;
mod groups;
mod inners;
mod lines;
mod outers;
mod reductions;
mod rows;
mod shapes;

pub use faults::OuterFault;
pub use inners::inner;
pub use outers::outer;
pub use reductions::reduce;

#[cfg(test)]
mod tests;
