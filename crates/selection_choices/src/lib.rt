//! Which selection a function of the language makes: `⌽`, `⊖` and `⍉` of one argument, dyadic `⍉`, `↓`, and `↑` with
//! counts that fit.
#![tactic(auto)]

mod axes;
mod choices;
mod counts;
mod lefts;
mod ones;
mod twos;

pub use choices::Choice;
pub use ones::choose_one;
pub use twos::choose_two;
