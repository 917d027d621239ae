//! The selections, with their numbers.

use apl_base::Shape;
use smallvec::SmallVec;

/// What a subscript keeps of an axis.
#[derive(Clone, Copy, Debug, Default, PartialEq, Eq)]
pub enum Item {
    /// All of it.
    #[default]
    All,
    /// One place; the axis is gone.
    At { i: u64 },
    /// `n` places, from `from` on and `step` apart.
    Run { from: u64, step: i64, n: u64 },
}

/// A selection from an array: it rearranges elements and computes none.
#[derive(Drop)]
pub enum Selection {
    /// From each axis so many elements, the last ones where the count is negative.
    Take { counts: SmallVec<i64, 8> },
    /// Each axis without so many elements, the last ones where the count is negative.
    Skip { counts: SmallVec<i64, 8> },
    /// An axis turned round.
    Reverse { axis: usize },
    /// Axis `j` becomes axis `axes[j]`; axes that fall together become their diagonal.
    Transpose { axes: SmallVec<usize, 8> },
    /// An item for each axis.
    Index { items: SmallVec<Item, 8> },
    /// The only element, at every index of a shape.
    Extend { to: Shape },
    /// The left argument of an outer product, over the shape of the right one.
    OuterLeft { right: Shape },
    /// The right argument of an outer product, under the shape of the left one.
    OuterRight { left: Shape },
}
