//! Tests of the reader of statements, from its public calls alone.
#![tactic(auto)]

#[cfg(test)]
mod lines;
#[cfg(test)]
mod trees;
