//! The first item in whose run a footprint is over a limit.

ghost use Rattle.apl_cost_laws.specs.Room.{PeaksOverHaveFirstItems, FirstItemsOverHavePeaks};

/// The peak of a script is over a limit exactly where there is a first item in whose run a footprint is.
pub fn peaks_over_have_first_items()
    ensures items { PeaksOverHaveFirstItems }
    ensures peaks { FirstItemsOverHavePeaks }
{}
