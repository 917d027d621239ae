//! Where evaluation stands while expressions are pending, and how an instruction moves it. Each function does nothing:
//! its contract is a law.
#![tactic(auto)]

mod growing;
mod laws;
mod statements;

pub use growing::code_grows;
pub use laws::{instructions_stand, joins_stand, stands_are_lists};
pub use statements::{statements_have_codes, statements_stand_alone};
