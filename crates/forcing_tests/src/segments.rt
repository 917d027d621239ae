//! The pending expressions that the tests are made of.

ghost use Rattle.std.specs.Prelude.{◌≡◌, ◌<◌, [], ◌∷◌, unsigned_abs, IfOk};
ghost use Rattle.apl_base.specs.Selection.{CountsFit};
ghost use Rattle.array_store.specs.Stores.{StoreView};
ghost use Rattle.array_store.specs.Follows.{Holds};
ghost use Rattle.drag_along.specs.declared.nodes.Node.TheVariants.{Operand};
ghost use Rattle.drag_along.specs.Nodes.{functions_in, leaf_shape};
ghost use Rattle.drag_along.specs.Segments.{named_by};
ghost use Rattle.drag_along.specs.Lawful.{IsLawful, IsLawfulLeaf};

use crate::arrays::{counting, everywhere};
use apl_base::{Dya, Mon, NoMemory, Place};
use array_store::Store;
use drag_along::{Leaf, Segment, join1, join2, leaf_interval};
use std::alloc::Global;

// A place on the first line.
pub fn column(column: u32) -> Place {
    Place { line: 1, column }
}

// A leaf, pending.
pub fn pending(alloc: Global, leaf: Leaf, store: &Store) -> Result<Segment, NoMemory>
    requires { IsLawfulLeaf store.now leaf }
    ensures shape { IfOk result (λ s. s.shape ≡ leaf_shape leaf) }
    ensures nodes { IfOk result (λ s. s.nodes ≡ Operand leaf ∷ []) }
    ensures lawful { IfOk result (IsLawful store.now) }
    ensures held { IfOk result (λ s. Holds store.now (named_by s)) }
{
    let range = leaf_interval(&leaf, store);
    Segment::of_leaf(alloc, leaf, range)
}

// From 1 to 64 functions by turns: the numbers from 0 up less what there is, and its negative.
pub fn chain(
    alloc: Global,
    leaf: &Leaf,
    functions: usize,
    store: &Store,
) -> Result<Segment, NoMemory>
    requires { IsLawfulLeaf store.now leaf.now }
    ensures some { IfOk result (λ s. 0 < functions_in s.nodes) }
    ensures lawful { IfOk result (IsLawful store.now) }
{
    let shape = &leaf.desc().shape;
    let numbers = pending(alloc, counting(shape), store)?;
    let right = pending(alloc, leaf.copy(), store)?;
    let mut s = join2(right, numbers, Dya::Sub, column(1))?;
    for k in 1..functions.min(64) {
        s = if k % 2 == 0 {
            let numbers = pending(alloc, counting(shape), store)?;
            join2(s, numbers, Dya::Sub, column(1))?
        } else {
            join1(s, Mon::Minus, column(1))?
        };
    }
    Ok(s)
}

// The first elements of a vector, or the last ones where the count is negative.
fn part(vector: &Leaf, count: i64) -> Leaf
    requires { CountsFit (leaf_shape vector.now) (count ∷ []) }
    ensures shape { leaf_shape result ≡ unsigned_abs count ∷ [] }
    ensures lawful { (store : StoreView)
        → IsLawfulLeaf store vector.now → IsLawfulLeaf store result }
{
    match vector.copy() {
        Leaf::Stored {
            owner,
            mut desc,
            kind,
        } => {
            desc.take(&[count]);
            Leaf::Stored { owner, desc, kind }
        }
        Leaf::Gen { mut desc, kind } => {
            desc.take(&[count]);
            Leaf::Gen { desc, kind }
        }
    }
}

// `(A÷2)+1÷B`, where A and B are the halves of a vector of four.
pub fn halves_and_parts(alloc: Global, vector: &Leaf, store: &Store) -> Result<Segment, NoMemory>
    requires lawful { IsLawfulLeaf store.now vector.now }
    requires four { leaf_shape vector.now ≡ 4 ∷ [] }
    ensures functions { IfOk result (λ s. functions_in s.nodes ≡ 3) }
    ensures lawful { IfOk result (IsLawful store.now) }
{
    let a = part(vector, 2);
    let b = part(vector, -2);
    let two = pending(alloc, everywhere(alloc, 2, &a.desc().shape), store)?;
    let one = pending(alloc, everywhere(alloc, 1, &b.desc().shape), store)?;
    let left = join2(two, pending(alloc, a, store)?, Dya::Div, column(3))?;
    let right = join2(pending(alloc, b, store)?, one, Dya::Div, column(8))?;
    join2(right, left, Dya::Add, column(6))
}
