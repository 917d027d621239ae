//! The store: arrays of cells under numbered owners. It counts who holds each owner, frees an owner with its
//! last holder, and keeps for each an interval in which its cells lie.
#![tactic(auto)]

mod hulls;
mod ids;
mod laws;
mod places;
mod storage;
#[cfg(test)]
mod tests;

pub use ids::{BeginFault, Counts, OwnerId};
pub use laws::{
    came_laws, costs_laws, follows_examples, follows_laws, interval_laws, look_up_laws, run_laws,
    worked_rows,
};
pub use storage::Store;
