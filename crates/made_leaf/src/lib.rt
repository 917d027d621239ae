//! What functions of whole arrays that are made at once have in common: why they are refused, what they answer, how
//! their arguments are read and how their results become leaves.
#![tactic(auto)]

mod faults;
mod laws;
mod makes;
mod reads;

pub use faults::MadeFault;
pub use laws::{argument_laws, made_laws};
pub use makes::{make_leaf, room_for, vector_shape};
pub use reads::{first_cell, read_all, read_block, read_cells};
