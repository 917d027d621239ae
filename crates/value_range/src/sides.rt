//! What is known of an argument, and of a value.

use apl_base::{Interval, Kind};

/// What is known of an argument: its kind, and what its cells lie in.
#[derive(Clone, Copy, Debug, PartialEq, Eq)]
pub struct Side {
    pub kind: Kind,
    pub interval: Interval,
}

/// What is known of a scalar function's values: what they lie in, and whether the function is
/// defined at all the arguments.
#[derive(Clone, Copy, Debug, PartialEq, Eq)]
pub struct Ranged {
    pub range: Interval,
    pub safe: bool,
}
