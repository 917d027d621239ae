//! Segments and their joins with ample memory.

ghost use Rattle.std.specs.Prelude.{◌≡◌, [], IfOk};
ghost use Rattle.apl_base.specs.Number.{IsNumber};
ghost use Rattle.drag_along.specs.Nodes.{functions_in};

use apl_base::{Cell, Dya, Interval, Kind, M, Mon, NoMemory, Place};
use array_desc::Desc;
use drag_along::{Leaf, Segment, join1, join2};
use std::alloc::Global;
use std::test::Fail;

/// A number that is pending, of which nothing is known but that it is one.
fn pending(alloc: Global, number: Cell) -> Result<Segment, NoMemory>
    requires { IsNumber number }
    ensures shape { IfOk result (λ s. s.shape ≡ []) }
    ensures functions { IfOk result (λ s. functions_in s.nodes ≡ 0) }
{
    let leaf = Leaf::Gen {
        desc: Desc::one(alloc, number),
        kind: Kind::Num,
    };
    Segment::of_leaf(alloc, leaf, Interval::Span { lo: -M, hi: M })
}

// Segments and their joins are made where there is memory.
#[test]
fn joins_with_ample_memory(rt: HostRuntime) -> Result<(), Fail> {
    let place = Place { line: 1, column: 2 };
    let negative = join1(pending(rt.alloc(), 6)?, Mon::Minus, place)?;
    assert_eq!(rt; negative.functions(), 1);
    let quotient = join2(negative, pending(rt.alloc(), 2)?, Dya::Div, place)?;
    assert_eq!(rt; quotient.functions(), 2);
    Ok(())
}
