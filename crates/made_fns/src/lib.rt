//! Functions of whole arrays that are made at once, as far as they move elements: shapes, vectors, repetition, rotation,
//! compression and expansion. Each answers the array of its definition, in a leaf that reads a new owner, or the first of
//! its errors. What they ask of their arguments is public, for functions like them in other crates.
#![tactic(auto)]

mod axes;
mod extends;
mod joins;
mod keeps;
pub mod leaves;
mod marks;
mod reshapes;
pub mod scans;
mod spaces;
mod spreads;
mod turns;
mod vectors;

pub use joins::catenate;
pub use keeps::compress;
pub use reshapes::{named_shape, reshape};
pub use spaces::{blank_of, expand};
pub use turns::{rotate, size_within};
pub use vectors::{iota, ravel, shape_of};

#[cfg(test)]
mod worked;
