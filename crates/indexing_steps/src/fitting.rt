//! The lengths that items of a subscript keep.

ghost use Rattle.std.specs.Prelude.{◌≡◌, length, map};
ghost use Rattle.apl_base.specs.Selection.{subscript_shape};
ghost use Rattle.beating.specs.Selecting.{position_of};

use apl_base::Shape;
use beating::Item;
use smallvec::SmallVec;
use std::alloc::Global;

/// The lengths of a selection by items, one for each axis of a shape. It takes no memory.
pub fn lengths_kept(alloc: Global, shape: &Shape, items: &[Item]) -> SmallVec<u64, 8>
    requires { length items.now ≡ length shape.now }
    ensures { result.items ≡ subscript_shape (map position_of items.now) shape.now }
{
    // It tells the proof that there are at most 8.
    let _rank = shape.rank();
    let mut lengths = SmallVec::new(alloc);
    for axis in 0..items.len() {
        match items[axis] {
            Item::All => lengths.push_reserved(shape.len(axis)),
            Item::At { .. } => {}
            Item::Run { n, .. } => lengths.push_reserved(n),
        }
    }
    lengths
}
