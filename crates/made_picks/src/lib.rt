//! Elements that are picked along the axes of an array: beyond its ends, where blanks stand, and by positions.
#![tactic(auto)]

mod gathers;
mod positions;
mod reads;
mod takes;
mod tracks;
mod walks;
mod windows;

pub use gathers::gather;
pub use positions::{all_in_axes, any_text, joined_shape, tracks_of};
pub use takes::overtake;
pub use tracks::Track;
