//! `A⍉B`, `A↑B` and `A↓B` as the machine's steps: selections where they fit, and a take of more than there is made at once.
#![tactic(auto)]

mod twos;

pub use twos::select_two;
