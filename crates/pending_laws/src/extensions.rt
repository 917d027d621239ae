//! Joins of operands that were put over a greater shape.
ghost use Rattle.pending_laws.specs.Extensions.{ExtensionIsSpread, ExtensionToOneElement, ExtendedJoinIsTheLift, OuterIsTheLift, OuterJoinIsTheProduct};

/// An operand of one element extends as the lift spreads it, so a function whose operands fit a shape means the join of
/// both over this shape.
pub fn extensions_are_spreads()
    ensures elements { ExtensionIsSpread }
    ensures one { ExtensionToOneElement }
    ensures join { ExtendedJoinIsTheLift }
{}

/// An outer product is the lift, and the join, of its arguments over the joined shape.
pub fn outer_products_are_lifts()
    ensures lift { OuterIsTheLift }
    ensures join { OuterJoinIsTheProduct }
{}
