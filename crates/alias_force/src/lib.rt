//! Pending expressions that are forced or copied before what they read is changed.
#![tactic(auto)]

mod holders;
mod laws;
mod moving;
mod passes;
mod settling;
mod writing;

pub use holders::Holder;
pub use laws::{desk_laws, idle_laws};
pub use moving::move_entry;
pub use settling::settle;
pub use writing::before_write;
