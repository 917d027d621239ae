//! Laws of leaves, segments and what they mean.

ghost use Rattle.drag_along.specs.Laws.{EntryIsMeaning, OneMeaning, FollowsKeeps, LeafKept, LeafCellsLawful, SegmentKept, OneLeafSegment, OneLeafMeans, OneLeafLawful, NamedAtMost, WholeViewStands, WrittenViewStands};

/// What is computed by whole arrays is what a segment means by its values and faults at each index, and a segment
/// means nothing else.
pub fn meaning_laws()
    ensures computed { EntryIsMeaning }
    ensures only { OneMeaning }
{}

/// What leaves and segments are over a store after something else was done with it.
pub fn store_laws()
    ensures follows { FollowsKeeps }
    ensures leaf { LeafKept }
    ensures cells { LeafCellsLawful }
    ensures segment { SegmentKept }
{}

/// What a segment of one leaf is, and how often a segment names an owner.
pub fn leaf_laws()
    ensures segment { OneLeafSegment }
    ensures meaning { OneLeafMeans }
    ensures lawful { OneLeafLawful }
    ensures names { NamedAtMost }
{}

/// What a leaf that reads all cells of an owner stands for, as the owner is and after one of its cells was written.
pub fn view_laws()
    ensures whole { WholeViewStands }
    ensures written { WrittenViewStands }
{}
