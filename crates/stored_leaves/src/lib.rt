//! Arguments of functions of whole arrays as they stand in memory, and answers that are expected: for tests.
#![tactic(auto)]

mod answers;
mod arguments;

pub use answers::{Expected, is_expected};
pub use arguments::{Argument, Read, placed, selected, stored};
