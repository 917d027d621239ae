//! Beating: selections change the descriptors of a pending expression's leaves, and a progression under `+`, `-` or
//! `×` stays one. No element is computed.
#![tactic(auto)]

mod combining;
mod examples;
mod folds;
mod laws;
mod positions;
mod runs;
mod scaling;
mod selecting;
mod selections;
mod subscripts;

pub use examples::run_examples;
pub use folds::{fold1, fold2};
pub use laws::fold_laws;
pub use positions::item_of;
pub use runs::{Run, as_progression, one_progression};
pub use selecting::select;
pub use selections::{Item, Selection};
