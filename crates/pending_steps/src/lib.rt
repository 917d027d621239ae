//! The machine's steps on pending entries: scalar functions, deferred.
#![tactic(auto)]

mod fits;
mod halts;
mod joins;
mod leaves;
mod literals;
mod pairs;
mod rooms;
mod scalars;
mod twos;

pub use fits::{Fit, shapes_fit};
pub use halts::Halt;
pub use joins::{extend, join_one, join_two};
pub use leaves::{drop_newest, push_held, push_leaf, take_leaf};
pub use literals::push_literal;
pub use pairs::{Operands, join_fitted};
pub use rooms::{compute_entry, settle_entries};
pub use scalars::scalar_one;
pub use twos::scalar_two;
