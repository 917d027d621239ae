//! Products with ample memory, and their refusals.

ghost use Rattle.std.specs.Prelude.{◌≡◌, ℕ, ◌≤◌};
ghost use Rattle.array_store.specs.Stores.{StoreView};
ghost use Rattle.drag_along.specs.Lawful.{IsLawfulLeaf};
ghost use Rattle.drag_along.specs.Nodes.{named_by_leaf};

use super::*;
use apl_base::{Cell, Dya, Kind, M, Place};
use apl_model::Axis;
use array_desc::Desc;
use array_store::Store;
use drag_along::Leaf;
use made_leaf::first_cell;
use std::alloc::Global;
use std::test::Fail;

// The first `n` of the numbers 2, 5 and 8.
fn numbers(alloc: Global, n: u64) -> Leaf
    requires { n ≤ 3 }
    ensures lawful { (store : StoreView) → IsLawfulLeaf store result }
    ensures names { (key : ℕ) → named_by_leaf result key ≡ 0 }
{
    Leaf::Gen {
        desc: Desc::line(alloc, 2, 3, n),
        kind: Kind::Num,
    }
}

// Their reduction, where there is one.
fn reduced(alloc: Global, f: Dya, n: u64) -> Option<Cell>
    requires { n ≤ 3 }
{
    let mut store = Store::new(alloc, 10);
    let b = numbers(alloc, n);
    match reduce(f, Axis::Last, &b, &mut store) {
        Ok(leaf) => Some(first_cell(&leaf, &mut store)),
        Err(_) => None,
    }
}

// Whether these are the reductions of none, one, two and three of them.
fn are_reductions(alloc: Global, f: Dya, wanted: [Option<Cell>; 4]) -> bool {
    reduced(alloc, f, 0) == wanted[0]
        && reduced(alloc, f, 1) == wanted[1]
        && reduced(alloc, f, 2) == wanted[2]
        && reduced(alloc, f, 3) == wanted[3]
}

#[test]
fn reductions_of_few_numbers(rt: HostRuntime) -> Result<(), Fail> {
    let rows: [(Dya, [Option<Cell>; 4]); 18] = [
        (Dya::Add, [Some(0), Some(2), Some(7), Some(15)]),
        (Dya::Sub, [Some(0), Some(2), Some(-3), Some(5)]),
        (Dya::Mul, [Some(1), Some(2), Some(10), Some(80)]),
        (Dya::Div, [Some(1), Some(2), None, None]),
        (Dya::Pow, [Some(1), Some(2), Some(32), None]),
        (Dya::Max, [Some(-M), Some(2), Some(5), Some(8)]),
        (Dya::Min, [Some(M), Some(2), Some(2), Some(2)]),
        (Dya::Residue, [Some(0), Some(2), Some(1), Some(1)]),
        (Dya::And, [Some(1), Some(2), None, None]),
        (Dya::Or, [Some(0), Some(2), None, None]),
        (Dya::Nand, [None, Some(2), None, None]),
        (Dya::Nor, [None, Some(2), None, None]),
        (Dya::Lt, [Some(0), Some(2), Some(1), Some(0)]),
        (Dya::Le, [Some(1), Some(2), Some(1), Some(0)]),
        (Dya::Eq, [Some(1), Some(2), Some(0), Some(0)]),
        (Dya::Ge, [Some(1), Some(2), Some(0), Some(1)]),
        (Dya::Gt, [Some(0), Some(2), Some(0), Some(1)]),
        (Dya::Ne, [Some(0), Some(2), Some(1), Some(1)]),
    ];
    for (f, wanted) in rows.iter() {
        assert!(rt; are_reductions(rt.alloc(), *f, *wanted), "{f:?}");
    }
    Ok(())
}

// The sum of the products of the first `n` and the first `m` of them, where there is one.
fn product_of_numbers(alloc: Global, n: u64, m: u64) -> Option<Cell>
    requires left { n ≤ 3 }
    requires right { m ≤ 3 }
{
    let mut store = Store::new(alloc, 10);
    let a = numbers(alloc, n);
    let b = numbers(alloc, m);
    match inner(Dya::Add, Dya::Mul, &a, &b, &mut store) {
        Ok(leaf) => Some(first_cell(&leaf, &mut store)),
        Err(_) => None,
    }
}

#[test]
fn inner_products_of_few_numbers(rt: HostRuntime) -> Result<(), Fail> {
    let whole = product_of_numbers(rt.alloc(), 3, 3) == Some(93);
    let extended = product_of_numbers(rt.alloc(), 1, 3) == Some(30);
    let empty = product_of_numbers(rt.alloc(), 0, 0) == Some(0);
    let apart = product_of_numbers(rt.alloc(), 2, 3) == None;
    assert!(rt; whole && extended && empty && apart);
    Ok(())
}

#[test]
fn an_outer_product_is_pending(rt: HostRuntime) -> Result<(), Fail> {
    let mut store = Store::new(rt.alloc(), 0);
    let a = numbers(rt.alloc(), 3);
    let b = numbers(rt.alloc(), 2);
    let place = Place { line: 1, column: 2 };
    let pending = outer(Dya::Mul, a, b, place, &mut store);
    let many = match pending {
        Ok(segment) => segment.shape.size(),
        Err(_) => 0,
    };
    assert_eq!(rt; many, 6);
    Ok(())
}
