//! A use of names, proved from their public clauses; and the tests of names.
#![tactic(auto)]

#[cfg(test)]
mod tests;
mod uses;

pub use uses::{
    enter, first_element, forget, holders, leave, nothing, set_copies, set_first, set_reversed,
    share,
};
