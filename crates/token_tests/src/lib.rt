//! Tests of the reader of tokens, from its public calls alone.
#![tactic(auto)]

#[cfg(test)]
mod tokens;
