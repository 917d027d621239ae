//! The machine's steps that are selections: they change the descriptors of what is pending, through as many joined
//! functions as there are, and compute no element.
#![tactic(auto)]

mod entries;
mod ones;
mod twos;

pub use ones::select_one;
pub use twos::select_fitting;
