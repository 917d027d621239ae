//! The laws of pending expressions.

ghost use Rattle.standing.specs.Laws.{OlderThenYounger, ArraysArePending, OldestFaultEnds, EndStays, EndIsKept, OlderStay, OneIsJoined, TwoAreJoined, UnfitEnds};

/// Pending arrays are the values of evaluation, and the oldest fault ends it.
pub fn stands_are_lists()
    ensures parts { OlderThenYounger }
    ensures arrays { ArraysArePending }
    ensures fault { OldestFaultEnds }
    ensures end { EndStays }
{}

/// After an end each instruction leads to it; and what an instruction does to younger entries it does whatever stands
/// below them.
pub fn instructions_stand()
    ensures end { EndIsKept }
    ensures older { OlderStay }
{}

/// Where a scalar function joins its operands, the join stands for what evaluation gives; where their shapes don't fit,
/// evaluation ends as that error.
pub fn joins_stand()
    ensures one { OneIsJoined }
    ensures two { TwoAreJoined }
    ensures unfit { UnfitEnds }
{}
