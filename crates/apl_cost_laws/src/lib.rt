//! Laws of ranged evaluation, of plain statements and of footprints. Each function does nothing: its contract is a law.
#![tactic(auto)]

mod inside;
mod plain;
mod room;
mod turns;

pub use inside::cells_stay_inside;
pub use plain::plain_expressions_have_values;
pub use room::peaks_over_have_first_items;
pub use turns::peaks_grow_with_turns;
