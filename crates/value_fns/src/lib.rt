//! Functions made at once whose answers depend on the values of their arguments.
#![tactic(auto)]

mod decodes;
mod digits;
mod encodes;
mod grades;
mod kinds;
mod memberships;
mod merges;
mod orders;
mod searches;

pub use decodes::decode;
pub use encodes::encode;
pub use grades::grade;
pub use memberships::{index_of, member};

#[cfg(test)]
mod tests;
