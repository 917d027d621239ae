//! The machine's steps on subscripts: where the positions are left out, scalars or numbers in progression, the
//! descriptors of what is pending are changed; any other subscript is made.
#![tactic(auto)]

mod choices;
mod computing;
mod dropping;
mod fitting;
mod gathering;
mod items;
mod operands;
mod selecting;
mod subscripts;

pub use choices::{Choice, choose, has_text};
pub use computing::compute_between;
pub use dropping::{drop_below, drop_many};
pub use operands::{count_there, leaf_at, positions_below};
pub use subscripts::subscript;
