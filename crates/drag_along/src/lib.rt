//! Pending expressions: segments of leaves and scalar functions in postfix order, what they mean over a store, and how
//! a scalar function joins its operands without computing an element.
#![tactic(auto)]

mod examples;
mod laws;
mod leaves;
mod nodes;
mod segments;

pub use examples::meaning_examples;
pub use laws::{leaf_laws, meaning_laws, store_laws, view_laws};
pub use leaves::{Leaf, leaf_interval, whole_view};
pub use nodes::Node;
pub use segments::{Segment, join1, join2};
