//! Tests of settling and of writing in place, over the names of a workspace and by public calls alone.
#![tactic(auto)]

mod desks;
mod settling;
mod tables;
#[cfg(test)]
mod tests;
mod variables;

pub use desks::Desk;
pub use settling::{Settled, pending, settled_pair};
pub use tables::{Five, five_entries, owner_of, picture};
pub use variables::{Variables, writable_number};
