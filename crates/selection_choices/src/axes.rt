//! Numbers that name axes.

ghost use Rattle.std.specs.Prelude.{◌≡◌, ◌-ℤ◌, ◌+ℤ◌, pos, ℕ, ◌<◌, ◌≤◌, length, map, unsigned_abs, IsTrue, slice_index};
ghost use Rattle.apl_model.specs.Made.{is_axis_among, are_axes as are_axes_among};
ghost use Rattle.apl_model_laws.specs.Lawful.{IsOrigin};

use apl_base::{Cell, Shape};
use smallvec::SmallVec;

/// Whether the numbers, counted from the origin, are exactly the first few.
pub fn are_axes(numbers: &[Cell], origin: Cell) -> bool
    requires origin { IsOrigin origin }
    ensures { result ≡ are_axes_among (map (λ z. z -ℤ origin) numbers.now) }
{
    for number in numbers {
        if !is_axis(*number, numbers, origin) {
            return false;
        }
    }
    true
}

// Whether a number is the origin, or above it with the one before it among the numbers.
fn is_axis(number: Cell, numbers: &[Cell], origin: Cell) -> bool
    requires origin { IsOrigin origin }
    ensures { result ≡ is_axis_among (map (λ z. z -ℤ origin) numbers.now) (number -ℤ origin) }
{
    number == origin || (number > origin && numbers.contains(&(number - 1)))
}

/// The axes that numbers name, counted from the origin.
pub fn axes_from(numbers: &[Cell], origin: Cell, shape: &Shape) -> SmallVec<usize, 8>
    requires origin { IsOrigin origin }
    requires count { length numbers.now ≡ length shape.now }
    requires axes { IsTrue (are_axes_among (map (λ z. z -ℤ origin) numbers.now)) }
    ensures { result.items ≡ map unsigned_abs (map (λ z. z -ℤ origin) numbers.now) }
{
    let rank = shape.rank();
    let mut axes = SmallVec::new(shape.allocator());
    for at in 0..rank {
        axes.push_reserved((numbers[at] - origin) as usize);
    }
    axes
}
