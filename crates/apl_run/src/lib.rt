//! The top call: it reads the words and a script, runs the script, and says how the run ended and what it left.
#![tactic(auto)]

mod descriptions;
mod endings;
mod laws;
mod run;
mod scripts;
mod statuses;
mod values;
mod words;

pub use apl_print::Cost;
pub use laws::{long_is_refused, one_answer};
pub use run::aplm;
pub use statuses::{Ended, Status, Which, Workspace};
pub use values::Value;
