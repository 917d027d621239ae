//! The machine's steps with effects: outputs, the trace, branches, and the beginning and the end of a call.
#![tactic(auto)]

mod branching;
mod declaring;
mod ends;
mod entering;
mod flows;
mod leaving;
mod outputs;
mod passing;
mod ready;
mod traces;

pub use branching::branch;
pub use ends::end_all;
pub use entering::{MOST_CALLS, enter};
pub use flows::Flow;
pub use leaving::leave;
pub use outputs::{OutputHalt, print, show};
pub use traces::{end_statement, operations};
