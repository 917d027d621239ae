//! What is left as it was when a leaf is made.

ghost use Rattle.made_leaf.specs.Laws.{MadeIsOnlyMade, MadeStands, MadeFollows, OthersKept, ArgumentKept, PendingKept, LeavesAreArrays};

/// What is so after every answer of a function that is made at once: the leaf stands for its array, holders follow
/// leaves, and all that is held, the arguments among it, is lawful and means what it meant.
pub fn made_laws()
    ensures only { MadeIsOnlyMade }
    ensures stands { MadeStands }
    ensures follows { MadeFollows }
    ensures others { OthersKept }
    ensures argument { ArgumentKept }
    ensures pending { PendingKept }
{}

/// What the arguments of such a function are: lawful leaves stand for lawful arrays.
pub fn argument_laws()
    ensures arrays { LeavesAreArrays }
{}
