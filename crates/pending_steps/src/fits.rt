//! The shapes of operands.

ghost use Rattle.std.specs.Prelude.{◌≡◌, Err, IfOk, IfErr};
ghost use Rattle.apl_model.specs.Lift.{fitting_shape};
ghost use Rattle.pending_steps.specs.Fits.{IsFit};

use apl_base::{ErrorKind, Shape};

/// How the shapes of two operands fit: they are alike, or one of them has one element and extends to the other's.
#[derive(Clone, Copy, Debug, PartialEq, Eq)]
pub enum Fit {
    Alike,
    LeftExtends,
    RightExtends,
}

/// How the shapes of the operands of `A f B` fit. RANK ERROR where neither has one element and their ranks differ,
/// LENGTH ERROR where then lengths differ. It takes no memory.
pub fn shapes_fit(left: &Shape, right: &Shape) -> Result<Fit, ErrorKind>
    ensures fits { IfOk result (IsFit left.now right.now) }
    ensures error { IfErr result (λ kind. fitting_shape left.now right.now ≡ Err kind) }
{
    if left.lengths() == right.lengths() {
        return Ok(Fit::Alike);
    }
    match (left.size() == 1, right.size() == 1) {
        (true, true) if left.rank() < right.rank() => Ok(Fit::LeftExtends),
        (true, true) => Ok(Fit::RightExtends),
        (true, false) => Ok(Fit::LeftExtends),
        (false, true) => Ok(Fit::RightExtends),
        (false, false) if left.rank() == right.rank() => Err(ErrorKind::Length),
        (false, false) => Err(ErrorKind::Rank),
    }
}
