//! Joins of pending expressions, which are progressions where they fold to one.

ghost use Rattle.std.specs.Prelude.{◌≡◌, ℕ, ◌+◌, ◌<◌, false, IfOk};
ghost use Rattle.apl_base.specs.Array.{size_of};
ghost use Rattle.apl_base.specs.Interval.{IsInterval};
ghost use Rattle.array_store.specs.Stores.{StoreView};
ghost use Rattle.array_store.specs.Follows.{both};
ghost use Rattle.drag_along.specs.Nodes.{functions_in};
ghost use Rattle.drag_along.specs.Segments.{IsSegment, named_by, side_of};
ghost use Rattle.drag_along.specs.Meaning.{combined1, combined2, entry};
ghost use Rattle.drag_along.specs.Lawful.{IsLawful};
ghost use Rattle.beating.specs.declared.selections.Selection.TheVariants.{Extend};
ghost use Rattle.beating.specs.Selecting.{selected_meaning};
ghost use Rattle.beating.specs.Folds.{NumbersInRange};

use apl_base::{Dya, Mon, NoMemory, Place, Shape};
use beating::{Selection, fold1, fold2, select};
use drag_along::{Segment, join1, join2};
use std::alloc::Global;
use value_range::{Side, range1, range2};

/// `f B`, deferred: a progression where it folds to one. No element is computed.
pub fn join_one(alloc: Global, right: Segment, f: Mon, place: Place) -> Result<Segment, NoMemory>
    requires few { functions_in right.nodes < 64 }
    requires numbers { NumbersInRange right }
    ensures segment { IfOk result (λ joined. IsSegment joined) }
    ensures shape { IfOk result (λ joined. joined.shape ≡ right.shape) }
    ensures lawful { IfOk result (λ joined. (store : StoreView)
        → IsLawful store right → IsLawful store joined) }
    ensures meaning { IfOk result (λ joined. (store : StoreView)
        → entry store joined ≡ combined1 f place (entry store right)) }
    ensures leaves { IfOk result (λ joined. (key : ℕ)
        → named_by joined key ≡ named_by right key) }
{
    let Some(leaf) = fold1(&right, f) else {
        return join1(right, f, place);
    };
    Segment::of_leaf(alloc, leaf, range1(f, side_of(&right)).range)
}

/// `A f B` of operands of one shape, deferred: a progression where it folds to one. No element is computed.
pub fn join_two(
    alloc: Global,
    right: Segment,
    left: Segment,
    f: Dya,
    place: Place,
) -> Result<Segment, NoMemory>
    requires shapes { left.shape ≡ right.shape }
    requires few { functions_in right.nodes + functions_in left.nodes < 64 }
    requires left_numbers { NumbersInRange left }
    requires right_numbers { NumbersInRange right }
    ensures segment { IfOk result (λ joined. IsSegment joined) }
    ensures shape { IfOk result (λ joined. joined.shape ≡ right.shape) }
    ensures lawful { IfOk result (λ joined. (store : StoreView)
        → IsLawful store right → IsLawful store left → IsLawful store joined) }
    ensures meaning { IfOk result (λ joined. (store : StoreView)
        → entry store joined ≡ combined2 f place (entry store left) (entry store right)) }
    ensures leaves { IfOk result (λ joined. (key : ℕ)
        → named_by joined key ≡ both (named_by right) (named_by left) key) }
{
    if !may_fold(f) {
        return join2(right, left, f, place);
    }
    let Some(leaf) = fold2(f, &left, &right) else {
        return join2(right, left, f, place);
    };
    let range = range2(f, side_of(&left), side_of(&right)).range;
    Segment::of_leaf(alloc, leaf, range)
}

// Whether a progression may come of this function. Where it says no too often, none is sought, so no clause hangs on it.
fn may_fold(f: Dya) -> bool {
    matches!(f, Dya::Add | Dya::Sub | Dya::Mul)
}

/// An operand of one element that can't fail, extended to a shape. No element is computed, and no memory is taken.
pub fn extend(s: Segment, to: &Shape) -> Segment
    requires safe { s.may_fail ≡ false }
    requires single { size_of s.shape ≡ 1 }
    ensures segment { IsSegment result }
    ensures safe { result.may_fail ≡ false }
    ensures shape { result.shape ≡ to.now }
    ensures lawful { (store : StoreView) → IsLawful store s → IsLawful store result }
    ensures meaning { (store : StoreView) → IsLawful store s
        → entry store result ≡ selected_meaning (Extend to.now) (entry store s) }
    ensures leaves { (key : ℕ) → named_by result key ≡ named_by s key }
    ensures functions { functions_in result.nodes ≡ functions_in s.nodes }
{
    let mut extended = s;
    select(&mut extended, &Selection::Extend { to: to.copy() });
    extended
}

// What the interval rules are told of a segment.
fn side_of(s: &Segment) -> Side
    ensures side { result ≡ side_of s.now }
    ensures interval { IsInterval result.interval }
    ensures segment { IsSegment s.now }
{
    Side {
        kind: s.kind,
        interval: s.range,
    }
}
