//! Selections of the language are selections of an array.
ghost use Rattle.pending_laws.specs.Selections.{ReversedIsSelected, ReversedHasAxis, ReversedScalarStays, FlippedIsSelected, TransposedIsSelected, TransposedHasAxes, TakenScalarExtends, TakenFromItself, TakenIsSelected, DroppedIsSelected, TakenHasCounts, DroppedHasCounts};
ghost use Rattle.pending_laws.specs.Subscripts.{ScalarsAreInProgression, RunsAreInProgression, SubscriptIsSelected, SubscriptHasPlaces};

/// `⌽` and `⊖` of one argument turn round the axis that is named, and leave a scalar as it is.
pub fn reversals_select()
    ensures axis { ReversedIsSelected }
    ensures exact { ReversedHasAxis }
    ensures scalar { ReversedScalarStays }
{}

/// `⍉` sends the axes to their reverse order, or to the numbers of its left argument.
pub fn transposes_select()
    ensures one { FlippedIsSelected }
    ensures two { TransposedIsSelected }
    ensures exact { TransposedHasAxes }
{}

/// `↑` of counts that fit takes them, and `↓` drops its counts, each capped at the length of its axis. A scalar extends
/// before to as many axes of length 1 as there are counts.
pub fn takes_select()
    ensures scalar { TakenScalarExtends }
    ensures itself { TakenFromItself }
    ensures take { TakenIsSelected }
    ensures drop { DroppedIsSelected }
    ensures take_exact { TakenHasCounts }
    ensures drop_exact { DroppedHasCounts }
{}

/// A subscript keeps of each axis the places that its position names, where that is left out or is numbers in progression.
pub fn subscripts_select()
    ensures scalar { ScalarsAreInProgression }
    ensures vector { RunsAreInProgression }
    ensures subscript { SubscriptIsSelected }
    ensures exact { SubscriptHasPlaces }
{}
