//! Laws of names. Each function does nothing: its contract is a law.

ghost use Rattle.name_table.specs.Laws.{CallFrameIsFilled, ErasedIsUnset, ErasedLeavesOthers, NamedAtMost, SetIsFound, SetLeavesOthers};

/// What setting and erasing do to the name and to every other one.
pub fn name_laws<A>()
    ensures found { SetIsFound A }
    ensures others { SetLeavesOthers A }
    ensures erased { ErasedIsUnset A }
    ensures others_than_erased { ErasedLeavesOthers A }
{}

/// How a frame of names that are all unset becomes the frame of a call.
pub fn frame_laws<A>()
    ensures { CallFrameIsFilled A }
{}

/// How often names and an owner go together at most.
pub fn count_laws()
    ensures { NamedAtMost }
{}
