//! What code prints and enters stays.

ghost use Rattle.standing.specs.Growing.{CodeGrows, FunctionsGrow};

/// Code takes back nothing that was printed or entered, and takes its turns from those that are left; so do calls.
pub fn code_grows()
    ensures code { CodeGrows }
    ensures functions { FunctionsGrow }
{}
