//! Descriptors: how the index of an element leads to a number, without reading an element.
#![tactic(auto)]

mod desc;
mod diagonals;
mod laws;
mod lists;
mod parts;
mod rows;
mod runs;
mod selections;
mod steps;

pub use desc::Desc;
pub use laws::{determined, worked_numbers};
pub use rows::{Row, RowWalk};
