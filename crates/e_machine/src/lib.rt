//! Computes the elements of pending expressions.
#![tactic(auto)]

mod columns;
mod copies;
mod engine;
mod faults;
mod forcing;
mod kinds;
mod laws;
mod reads;

pub use copies::own;
pub use faults::ForceFault;
pub use forcing::force;
pub use laws::{force_beside, own_beside};
pub use reads::{read_at, read_places};
