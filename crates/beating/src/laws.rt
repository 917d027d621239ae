//! When functions of progressions may be folded.

ghost use Rattle.beating.specs.Folds.{LawfulNumbersInRange};

/// The condition of `fold2` is met by segments that are lawful over a store.
pub fn fold_laws()
    ensures { LawfulNumbersInRange }
{}
