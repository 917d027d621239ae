//! What pending expressions mean is what the language means: joins are lifts, and selections are the language's. Each
//! function does nothing: its contract is a law.
#![tactic(auto)]

mod extensions;
mod joins;
mod selections;

pub use extensions::{extensions_are_spreads, outer_products_are_lifts};
pub use joins::joins_are_lifts;
pub use selections::{reversals_select, subscripts_select, takes_select, transposes_select};
