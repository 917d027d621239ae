//! Tests of functions made at once, over arguments as they stand in memory.
#![tactic(auto)]

#[cfg(test)]
mod along;
mod calls;
#[cfg(test)]
mod picked;
#[cfg(test)]
mod rows;
#[cfg(test)]
mod shapes;
#[cfg(test)]
mod tests;
#[cfg(test)]
mod values;

pub use calls::{Call, Places, called};
