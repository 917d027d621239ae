//! Sums, differences and products of descriptors.

ghost use Rattle.std.specs.Prelude.{◌↔◌, ◌+ℤ◌, ◌-ℤ◌, ◌*ℤ◌, IsSome, IfSome};
ghost use Rattle.beating.specs.Folds.{Keeps, exact_value, CanCombine, Combines};

use crate::scaling::{is_constant, scaled, shifted};
use apl_base::Dya;
use array_desc::Desc;

/// The descriptor of `A f B` for two descriptors, one of them the same number everywhere: there is one exactly where
/// `f` is `+`, `-` or `×`.
pub fn combined(f: Dya, left: &Desc, right: &Desc) -> Option<Desc>
    requires { Keeps f → CanCombine (exact_value f) left.now right.now }
    ensures exact { IsSome result ↔ Keeps f }
    ensures combines { IfSome result (Combines (exact_value f) left.now right.now) }
{
    match f {
        Dya::Add => Some(sum(left, right)),
        Dya::Sub => Some(difference(left, right)),
        Dya::Mul => Some(product(left, right)),
        _ => None,
    }
}

// The sum at each index: the other one shifted by the constant one.
fn sum(left: &Desc, right: &Desc) -> Desc
    requires { CanCombine ◌+ℤ◌ left.now right.now }
    ensures { Combines ◌+ℤ◌ left.now right.now result }
{
    if is_constant(left) {
        shifted(right, left.base)
    } else {
        shifted(left, right.base)
    }
}

// The difference at each index: a sum with the negative.
fn difference(left: &Desc, right: &Desc) -> Desc
    requires { CanCombine ◌-ℤ◌ left.now right.now }
    ensures { Combines ◌-ℤ◌ left.now right.now result }
{
    sum(left, &scaled(right, -1))
}

// The product at each index: the other one scaled by the constant one.
fn product(left: &Desc, right: &Desc) -> Desc
    requires { CanCombine ◌*ℤ◌ left.now right.now }
    ensures { Combines ◌*ℤ◌ left.now right.now result }
{
    if is_constant(left) {
        scaled(right, left.base)
    } else {
        scaled(left, right.base)
    }
}
