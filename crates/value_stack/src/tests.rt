//! A push with ample memory.

ghost use Rattle.apl_base.specs.Number.{IsNumber};

use crate::Stack;
use apl_base::{Cell, Interval, Kind, M, NoMemory};
use array_desc::Desc;
use drag_along::{Leaf, Segment};
use std::alloc::Global;
use std::test::Fail;

/// A number that is pending.
fn pending(alloc: Global, number: Cell) -> Result<Segment, NoMemory>
    requires { IsNumber number }
{
    let leaf = Leaf::Gen {
        desc: Desc::one(alloc, number),
        kind: Kind::Num,
    };
    Segment::of_leaf(alloc, leaf, Interval::Span { lo: -M, hi: M })
}

#[test]
fn pushes_with_ample_memory(rt: HostRuntime) -> Result<(), Fail> {
    let mut stack = Stack::new(rt.alloc());
    stack.push(pending(rt.alloc(), 1)?)?;
    stack.push(pending(rt.alloc(), 2)?)?;
    assert_eq!(rt; stack.len(), 2);
    assert_eq!(rt; stack.failing_from(0), None);
    assert!(rt; stack.pop().is_some());
    assert_eq!(rt; stack.len(), 1);
    Ok(())
}
