//! Instructions that change the pending entries alone, over a machine.
#![tactic(auto)]

mod changing;
mod ones;
mod subscripts;
mod twos;

pub use changing::change_entries;
