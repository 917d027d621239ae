//! Uses of pending expressions, their stack and their leaves, proved from public clauses alone.
#![tactic(auto)]

mod entries;
mod positions;
mod writes;
mod younger;

pub use entries::{drop_newest, fold_and_push, push_again, push_entry_again};
pub use positions::select_positions;
pub use writes::write_whole;
pub use younger::write_unread_from;
