//! Footprints of runs with more turns.

ghost use Rattle.apl_cost_laws.specs.Turns.{FootprintsOfFewerTurns, PeakGrowsWithTurns, PartsAreAtMostPeak};

/// The footprints of a run are the older ones of those of the same run with more turns, so the peak grows with the turns,
/// and none of the footprints of a part of a run is above it.
pub fn peaks_grow_with_turns()
    ensures footprints { FootprintsOfFewerTurns }
    ensures peaks { PeakGrowsWithTurns }
    ensures parts { PartsAreAtMostPeak }
{}
