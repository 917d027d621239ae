//! How a script that is run to its end ends.

/// How a script ended that was run to its end: no statement reported an error, or one did.
#[derive(Clone, Copy, Debug, PartialEq, Eq)]
pub enum End {
    Done,
    Reported,
}
