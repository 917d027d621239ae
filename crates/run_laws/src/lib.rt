//! What the run of some items of a script comes to: it depends neither on what was printed nor on which statements ended
//! before, it takes nothing of either back, and a run of all items is that of the first ones and then of the others.
#![tactic(auto)]

ghost use Rattle.run_laws.specs.ItemRuns.{RunsBehind, RunsGrow, RunsJoined};

/// A run does the same whatever was printed and ended before, behind which it prints and enters what ends.
pub fn runs_behind()
    ensures { RunsBehind }
{}

/// A run takes back nothing that was printed, and no statement that ended.
pub fn runs_grow()
    ensures { RunsGrow }
{}

/// A run of items and others is that of the items, and from where they leave it that of the others, unless no turn is
/// left.
pub fn runs_joined()
    ensures { RunsJoined }
{}
