//! Scripts whole, through the top call, with sources and sinks that fail in mid-stream.
#![tactic(auto)]

#[cfg(test)]
mod called;
#[cfg(test)]
mod costs;
#[cfg(test)]
mod counted;
#[cfg(test)]
mod faults;
#[cfg(test)]
mod rows;
mod runs;
#[cfg(test)]
mod tables;
#[cfg(test)]
mod worded;

pub use runs::{Course, Left, PLAIN, run, run_for_variables};
