//! Counts that are taken or dropped.

ghost use Rattle.std.specs.Prelude.{◌≡◌, ◌^◌, ◌≤◌, pos, length, IfSome, IfNone, IsTrue, ◌↔◌, replicate};
ghost use Rattle.apl_base.specs.Array.{IsShape};
ghost use Rattle.apl_base.specs.Selection.{CountsFit};
ghost use Rattle.pending_laws.specs.Selections.{TakesCounts, DropsCounts, capped, capped_counts};
ghost use Rattle.selection_choices.specs.Choices.{axes_under};

use apl_base::{Cell, Shape};
use beating::Selection;
use smallvec::SmallVec;

/// The axes of which so many counts are taken: a scalar has one of length 1 for each.
pub fn axes_of(count: usize, shape: &Shape) -> Shape
    requires { length shape.now ≡ 0 → count ≤ 8 }
    ensures axes { result ≡ axes_under count shape.now }
    ensures lawful { IsShape result }
{
    if shape.rank() > 0 {
        return shape.copy();
    }
    match Shape::of(shape.allocator(), &[1; 8][..count]) {
        Ok(ones) => ones,
        Err(_) => unreachable!(),
    }
}

/// The selection that takes these counts, where they fit.
pub fn take(counts: &[Cell], axes: &Shape) -> Option<Selection>
    requires { length counts.now ≡ length axes.now }
    ensures takes { IfSome result (TakesCounts counts.now) }
    ensures fits { IfSome result (λ _. CountsFit axes.now counts.now) }
    ensures exact { IfNone result (¬ (CountsFit axes.now counts.now)) }
{
    let mut taken = SmallVec::new(axes.allocator());
    for axis in 0..axes.rank() {
        let count = counts[axis];
        if count.unsigned_abs() > u128::from(axes.len(axis)) {
            return None;
        }
        taken.push_reserved(count as i64);
    }
    Some(Selection::Take { counts: taken })
}

/// The selection that drops these counts, each capped at the length of its axis.
pub fn skip(counts: &[Cell], axes: &Shape) -> Selection
    requires { length counts.now ≡ length axes.now }
    ensures { DropsCounts (capped_counts axes.now counts.now) result }
{
    let mut dropped = SmallVec::new(axes.allocator());
    for axis in 0..axes.rank() {
        dropped.push_reserved(cap(counts[axis], axes.len(axis)));
    }
    Selection::Skip { counts: dropped }
}

// The count, or with its sign the length where that is less.
fn cap(count: Cell, n: u64) -> i64
    requires { n ≤ 2 ^ 40 }
    ensures { result ≡ capped n count }
{
    let most = Cell::from(n);
    count.min(most).max(-most) as i64
}
