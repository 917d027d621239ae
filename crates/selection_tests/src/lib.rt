//! Tests of joins, selections and progressions, which need public calls of the crates below alone.
#![tactic(auto)]

#[cfg(test)]
mod joins;
#[cfg(test)]
mod runs;
#[cfg(test)]
mod selections;
