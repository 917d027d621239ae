//! The names of a workspace: the globals and the frames of the pending calls, each name bound to a leaf or unset.
#![tactic(auto)]

mod laws;
mod leaves;
mod names;
mod scopes;

pub use laws::{count_laws, frame_laws, name_laws};
pub use names::Names;
