//! Tests of forcing, copying and reading, by public calls alone.
#![tactic(auto)]

#[cfg(test)]
mod arrays;
#[cfg(test)]
mod blocks;
#[cfg(test)]
mod forced;
#[cfg(test)]
mod leaves;
#[cfg(test)]
mod segments;
