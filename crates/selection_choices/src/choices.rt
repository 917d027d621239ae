//! What a function makes of an array that it only rearranges.

ghost use Rattle.std.specs.Prelude.{◌≡◌, ℕ, false};
ghost use Rattle.array_store.specs.Stores.{StoreView};
ghost use Rattle.drag_along.specs.Segments.{IsSegment, named_by};
ghost use Rattle.drag_along.specs.Meaning.{entry};
ghost use Rattle.drag_along.specs.Lawful.{IsLawful};
ghost use Rattle.selection_choices.specs.Choices.{ChoiceFits, chosen_meaning};

use apl_base::Shape;
use beating::{Selection, select};
use drag_along::Segment;

/// What a function makes of an array that it only rearranges.
#[derive(Drop)]
pub enum Choice {
    /// The array as it is.
    Same,
    /// A selection from it.
    Select { by: Selection },
    /// A selection from it, where its only element has been extended to a shape.
    Widen { to: Shape, by: Selection },
}

impl Choice {
    /// Makes it of a pending expression that can't fail: the descriptors of all its leaves are changed. No element is
    /// computed or read, and no memory is taken.
    pub fn make(&self, s: &mut Segment)
        requires safe { s.old.may_fail ≡ false }
        requires fits { ChoiceFits self.now s.old.shape }
        ensures segment { IsSegment s.new }
        ensures safe { s.new.may_fail ≡ false }
        ensures lawful { (store : StoreView) → IsLawful store s.old → IsLawful store s.new }
        ensures meaning { (store : StoreView) → IsLawful store s.old
            → entry store s.new ≡ chosen_meaning self.now (entry store s.old) }
        ensures leaves { (key : ℕ) → named_by s.new key ≡ named_by s.old key }
    {
        // It tells the proof that it is a segment.
        let _functions = s.functions();
        match self {
            Choice::Same => {}
            Choice::Select { by } => select(s, by),
            Choice::Widen { to, by } => {
                select(s, &Selection::Extend { to: to.copy() });
                select(s, by);
            }
        }
    }
}
