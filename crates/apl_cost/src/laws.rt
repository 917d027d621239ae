//! The laws of ranged evaluation: each function does nothing, and its contract is the law.

ghost use Rattle.apl_cost.specs.Laws.{ExpressionsForget, StatementsForget, CallsForget, RunsForget, ImmediateForgets, MeasuresForget, FootprintsAreAtMostPeak, FootprintsOfFirstItems, FirstFootprintsAreAtMostPeak, NumbersFromAreExact, TakesHaveLengths, DropsHaveLengths, TransposesHaveLengths, ReversalsHaveLengths, SubscriptsHaveLengths, SafeFunctionsOfOne, SafeFunctionsOfTwo};

/// Ranged evaluation comes to what evaluation comes to, once the intervals are forgotten.
pub fn forgetting_gives_evaluation()
    ensures expressions { ExpressionsForget }
    ensures statements { StatementsForget }
    ensures calls { CallsForget }
    ensures runs { RunsForget }
    ensures immediate { ImmediateForgets }
{}

/// Footprints change nothing of ranged evaluation, none of a script's run is above its peak, and those of its first items
/// stay where more items follow.
pub fn footprints_of_runs()
    ensures forgetting { MeasuresForget }
    ensures peak { FootprintsAreAtMostPeak }
    ensures first_items { FootprintsOfFirstItems }
    ensures first_peak { FirstFootprintsAreAtMostPeak }
{}

/// The interval that a plain `⍳` has by its ends is the exact one of its numbers.
pub fn numbers_from_are_exact()
    ensures { NumbersFromAreExact }
{}

/// A selection that has lengths, by those of its argument alone, is made without error and has them.
pub fn selections_have_lengths()
    ensures takes { TakesHaveLengths }
    ensures drops { DropsHaveLengths }
    ensures transposes { TransposesHaveLengths }
    ensures reversals { ReversalsHaveLengths }
    ensures subscripts { SubscriptsHaveLengths }
{}

/// Where the interval rules call a scalar function safe, over arrays whose shapes fit, it has a value in the range.
pub fn safe_functions_have_values()
    ensures one { SafeFunctionsOfOne }
    ensures two { SafeFunctionsOfTwo }
{}
