//! Worked command lines.

ghost use Rattle.apl_words.specs.Laws.{AllWords, FirstSeed, NoWords, RefusedWords};

/// Worked command lines, and the first seed of a workload.
pub fn worked_words()
    ensures none { NoWords }
    ensures all { AllWords }
    ensures refused { RefusedWords }
    ensures seed { FirstSeed }
{}
