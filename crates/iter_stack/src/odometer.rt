//! The odometer: all indices of a shape in order.

ghost use Rattle.std.specs.Prelude.{◌≡◌, ◌^◌, ◌≤◌, length};
ghost use Rattle.apl_base.specs.Array.{IsIndex, size_of};
ghost use Rattle.iter_stack.specs.Indices.{from_the_end, walk};

use apl_base::Shape;
use smallvec::SmallVec;
use std::marker::Model;

/// A walk over all indices of a shape, which contracts see as the list of the indices that are left.
#[derive(Drop)]
pub struct Odometer {
    shape: Shape,
    back: bool,
    place: u64,
    size: u64,
}

impl Model for Odometer {
    ghost use Rattle.std.specs.Prelude.{◌≡◌, ℕ, ◌≤◌, List, drop};
    ghost use Rattle.apl_base.specs.Array.{size_of};
    ghost use Rattle.iter_stack.specs.Indices.{walk};

    ghost Value = { List (List ℕ) };

    ghost view = { λ o. drop o.place (walk o.back o.shape) };

    ghost invariant = { λ o. (o.size ≡ size_of o.shape) × (o.place ≤ o.size) };
}

impl Odometer {
    /// A walk over all indices of the shape in row-major order. Where `back` is set, the last axis runs from
    /// its end to its start. It takes no memory, and neither do its items.
    pub fn new(shape: &Shape, back: bool) -> Odometer
        ensures indices { result ≡ walk back shape.now }
        ensures count { length result ≡ size_of shape.now }
        ensures bound { length result ≤ 2 ^ 40 }
    {
        Odometer {
            shape: shape.copy(),
            back,
            place: 0,
            size: shape.size(),
        }
    }
}

impl Iterator for Odometer {
    ghost use Rattle.std.specs.Prelude.{ℕ, List};
    ghost use Rattle.std.specs.Iterator.{YieldsFirstBy, item_count};

    type Item = SmallVec<u64, 8>;

    ghost next_gives = { YieldsFirstBy (λ index. index.items) (λ left. left) };

    ghost remaining = { item_count (λ left. left) };

    /// The next index, while there is one.
    fn next(&mut self) -> Option<SmallVec<u64, 8>> {
        if self.place == self.size {
            return None;
        }
        let mut index = self.shape.index_of(self.place);
        if self.back {
            count_from_the_end(&self.shape, &mut index);
        }
        self.place += 1;
        Some(index)
    }
}

// Counts the number on the last axis from that axis's end.
fn count_from_the_end(shape: &Shape, index: &mut SmallVec<u64, 8>)
    requires { IsIndex shape.now index.old.items }
    ensures { index.new.items ≡ from_the_end shape.now index.old.items }
{
    if let Some(last) = shape.rank().checked_sub(1) {
        let length = shape.len(last);
        let numbers = index.as_mut_slice();
        numbers[last] = length - 1 - numbers[last];
    }
}
