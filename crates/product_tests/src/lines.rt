//! Arrays whose lines along one axis are alike, and the cells of their reductions.

ghost use Rattle.std.specs.Prelude.{◌≡◌, ℕ, ◌≤◌, ◌++◌, IsTrue, IfOk, IfSome};
ghost use Rattle.apl_base.specs.Array.{IsShape};
ghost use Rattle.array_store.specs.Stores.{StoreView};
ghost use Rattle.drag_along.specs.Lawful.{IsLawfulLeaf};
ghost use Rattle.product_tests.specs.Lines.{FirstOf};

use apl_base::{Cell, Dya, Kind, NoMemory, Shape};
use apl_model::Axis;
use array_desc::Desc;
use array_store::Store;
use drag_along::Leaf;
use made_leaf::{MadeFault, read_cells};
use product_fns::reduce;
use std::alloc::Global;

/// The first `n` of 2, 5 and 8, or of B, E and H, along one axis, at each index of the axes before it and behind it; none
/// where the array would be too large.
pub fn alike(
    alloc: Global,
    kind: Kind,
    n: u64,
    before: &Shape,
    behind: &Shape,
) -> Result<Option<Leaf>, NoMemory>
    requires { n ≤ 3 }
    ensures { IfOk result (λ made. IfSome made (λ leaf. (store : StoreView)
        → IsLawfulLeaf store leaf)) }
{
    let mut desc = Desc::line(alloc, first_of(kind), 3, n);
    if !fit(alloc, before, &desc.shape)? {
        return Ok(None);
    }
    desc.outer_right(before);
    if !fit(alloc, &desc.shape, behind)? {
        return Ok(None);
    }
    desc.outer_left(behind);
    Ok(Some(Leaf::Gen { desc, kind }))
}

/// The first element alone, without an axis.
pub fn scalar(alloc: Global, kind: Kind) -> Leaf
    ensures { (store : StoreView) → IsLawfulLeaf store result }
{
    Leaf::Gen {
        desc: Desc::one(alloc, first_of(kind)),
        kind,
    }
}

// Whether these lengths make a shape together.
fn fit(alloc: Global, first: &Shape, second: &Shape) -> Result<bool, NoMemory>
    ensures { IfOk result (λ fits. IsTrue fits → IsShape (first.now ++ second.now)) }
{
    let mut lengths = first.lengths().to_vec(alloc)?;
    lengths.extend_from_slice(second.lengths())?;
    Ok(Shape::of(alloc, lengths.as_slice()).is_ok())
}

// The first element of a line.
fn first_of(kind: Kind) -> Cell
    ensures { FirstOf kind result }
{
    match kind {
        Kind::Num => 2,
        Kind::Char => 66,
    }
}

/// The shape and the cells of an array.
#[derive(Drop)]
pub struct Made {
    pub shape: Shape,
    pub cells: Vec<Cell>,
}

/// A reduction, where it is defined.
pub fn reduced(f: Dya, axis: Axis, leaf: &Leaf, store: &mut Store) -> Result<Made, MadeFault>
    requires { IsLawfulLeaf store.old leaf.now }
{
    let made = reduce(f, axis, leaf, store)?;
    let cells = read_cells(&made, store)?;
    Ok(Made {
        shape: made.desc().shape.copy(),
        cells,
    })
}
