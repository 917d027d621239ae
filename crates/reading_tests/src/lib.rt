//! Tests of the reader of scripts, from its public calls alone.
#![tactic(auto)]

#[cfg(test)]
mod scripts;
