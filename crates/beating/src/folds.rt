//! Functions of progressions that are progressions.

ghost use Rattle.std.specs.Prelude.{◌≡◌, ◌↔◌, ◌⊎◌, IsTrue, None, Some, IsSome, IfSome, MatchOption};
ghost use Rattle.apl_base.specs.declared.faults.Place.{Place};
ghost use Rattle.apl_base.specs.declared.cells.Kind.TheVariants.{Num};
ghost use Rattle.apl_base.specs.Interval.{IsInterval};
ghost use Rattle.array_store.specs.Stores.{StoreView};
ghost use Rattle.value_range.specs.Interval.{ranged1, ranged2};
ghost use Rattle.drag_along.specs.declared.leaves.Leaf.TheVariants.{Gen};
ghost use Rattle.drag_along.specs.Meaning.{combined1, combined2, entry};
ghost use Rattle.drag_along.specs.Segments.{IsSegment, side_of};
ghost use Rattle.drag_along.specs.Lawful.{LeafWithin};
ghost use Rattle.drag_along.specs.Views.{only_numbers};
ghost use Rattle.beating.specs.Folds.{AllRest, Folds1, Folds2, FoldsTo, NumbersInRange};

use crate::combining::combined;
use crate::scaling::{is_constant, scaled};
use apl_base::{Dya, Kind, Mon};
use array_desc::Desc;
use drag_along::{Leaf, Node, Segment};
use value_range::{Side, range2};

/// `f B` as a progression: a leaf exactly where `f` is `-` and B is one leaf of numbers that are not stored. No
/// element is computed or read, and no memory is taken.
pub fn fold1(s: &Segment, f: Mon) -> Option<Leaf>
    ensures exact { IsSome result ↔ Folds1 f s.now }
    ensures folded { IfSome result (λ leaf. (place : Place)
        → FoldsTo s.now.shape leaf (λ store. combined1 f place (entry store s.now))) }
    ensures within { NumbersInRange s.now → IfSome result (λ leaf. (store : StoreView)
        → LeafWithin store leaf (ranged1 f (side_of s.now)).range) }
{
    if f != Mon::Minus {
        return None;
    }
    let desc = only_numbers(s)?;
    Some(numbers(scaled(desc, -1)))
}

/// `A f B` as a progression: a leaf exactly where `f` is `+`, `-` or `×`, both are one leaf of numbers that are not
/// stored, one of them is the same number everywhere, and the interval rules find the function safe. No element is
/// computed or read, and no memory is taken.
pub fn fold2(f: Dya, left: &Segment, right: &Segment) -> Option<Leaf>
    requires shapes { left.now.shape ≡ right.now.shape }
    requires left_in_range { NumbersInRange left.now }
    requires right_in_range { NumbersInRange right.now }
    ensures exact { IsSome result ↔ Folds2 f left.now right.now }
    ensures folded { IfSome result (λ leaf. (place : Place)
        → FoldsTo right.now.shape leaf
        (λ store. combined2 f place (entry store left.now) (entry store right.now))) }
    ensures within { IfSome result (λ leaf. (store : StoreView)
        → LeafWithin store leaf (ranged2 f (side_of left.now) (side_of right.now)).range) }
{
    let a = only_numbers(left)?;
    let b = only_numbers(right)?;
    if !one_is_constant(a, b) || !range2(f, side_of(left), side_of(right)).safe {
        return None;
    }
    Some(numbers(combined(f, a, b)?))
}

// Whether one of two descriptors gives the same number everywhere.
fn one_is_constant(a: &Desc, b: &Desc) -> bool
    ensures { IsTrue result ↔ (AllRest a.now.strides ⊎ AllRest b.now.strides) }
{
    is_constant(a) || is_constant(b)
}

// What the interval rules are told of a segment.
fn side_of(s: &Segment) -> Side
    ensures side { result ≡ side_of s.now }
    ensures interval { IsInterval result.interval }
{
    Side {
        kind: s.kind,
        interval: s.range,
    }
}

// The descriptor of a segment that is one leaf of numbers, not stored.
fn only_numbers(s: &Segment) -> Option<&Desc>
    ensures found { MatchOption result (only_numbers s.now.nodes ≡ None)
        (λ desc. only_numbers s.now.nodes ≡ Some desc.now) }
    ensures segment { IsSegment s.now }
{
    match s.nodes.as_slice() {
        [
            Node::Operand {
                leaf: Leaf::Gen {
                    desc,
                    kind: Kind::Num,
                },
            },
        ] => Some(desc),
        _ => None,
    }
}

// The leaf of numbers that a descriptor gives, not stored.
fn numbers(desc: Desc) -> Leaf
    ensures { result ≡ Gen desc Num }
{
    Leaf::Gen {
        desc,
        kind: Kind::Num,
    }
}
