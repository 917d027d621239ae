//! Worked examples of the definitions of evaluation: what scripts print, how they end, and what they leave.
#![tactic(auto)]

mod calls;
mod commands;
mod errors;
mod extension;
mod frames;
mod kinds;
mod layouts;
mod made;
mod order;
mod origins;
mod precedence;
mod products;
mod scalars;
mod selections;
mod subscripts;
mod sums;
mod texts;

pub use calls::examples_of_calls;
pub use commands::examples_of_commands;
pub use errors::examples_of_errors;
pub use extension::examples_of_extension;
pub use frames::examples_of_frames;
pub use kinds::examples_of_kinds;
pub use layouts::examples_of_layouts;
pub use made::examples_of_made;
pub use order::examples_of_order;
pub use origins::examples_of_origins;
pub use precedence::examples_of_precedence;
pub use products::examples_of_products;
pub use scalars::examples_of_scalars;
pub use selections::examples_of_selections;
pub use subscripts::examples_of_subscripts;
pub use sums::examples_of_sums;
pub use texts::examples_of_texts;
