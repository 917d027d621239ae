//! Outer products, which stay pending.
ghost use Rattle.std.specs.Prelude.{◌≡◌, ◌↔◌, ◌≤◌, ◌++◌, ℕ, IsOk, IfOk, OnOk, OnErr};
ghost use Rattle.apl_base.specs.declared.faults.ErrorKind.TheVariants as error;
ghost use Rattle.apl_base.specs.Array.{IsShape};
ghost use Rattle.array_store.specs.Stores.{IsStore};
ghost use Rattle.array_store.specs.Follows.{Follows, Holds, none};
ghost use Rattle.drag_along.specs.Nodes.{leaf_shape};
ghost use Rattle.drag_along.specs.Segments.{IsSegment, named_by};
ghost use Rattle.drag_along.specs.Meaning.{entry};
ghost use Rattle.drag_along.specs.Lawful.{IsLawful, IsLawfulLeaf};
ghost use Rattle.beating.specs.declared.selections.Selection.TheVariants as select;
ghost use Rattle.beating.specs.Selecting.{Fits};
ghost use Rattle.pending_laws.specs.Joins.{meaning_of};
ghost use Rattle.product_fns.specs.Outer.{outer_of, named_by_both, IsPendingProduct, IsExtended};

use crate::faults::OuterFault;
use crate::shapes::joined_shape;
use apl_base::{Dya, NoMemory, Place, Shape, TooLarge};
use array_store::Store;
use beating::{Selection, select};
use drag_along::{Leaf, Segment, join2, leaf_interval};

/// `A∘.f B`, deferred: each element of A with each of B. Both leaves become one pending expression, each of them
/// extended by its descriptor; no element is computed or read. `Limit` comes exactly where that is the language's
/// answer. After a refusal the leaves are let go.
pub fn outer(
    f: Dya,
    a: Leaf,
    b: Leaf,
    place: Place,
    store: &mut Store,
) -> Result<Segment, OuterFault>
    requires left { IsLawfulLeaf store.old a }
    requires right { IsLawfulLeaf store.old b }
    requires held { Holds store.old (named_by_both a b) }
    ensures limit { (result ≡ Err OuterFault.Limit)
        ↔ (outer_of store.old f a b ≡ Err error.Limit) }
    ensures pending { IfOk result (IsPendingProduct store.old f place a b) }
    ensures means { IfOk result (λ segment.
        entry store.new segment ≡ meaning_of place (outer_of store.old f a b)) }
    ensures lawful { IfOk result (IsLawful store.new) }
    ensures segment { IfOk result IsSegment }
    ensures leaves { IfOk result (λ segment. (key : ℕ)
        → named_by segment key ≡ named_by_both a b key) }
    ensures unchanged { OnOk result (store.new ≡ store.old) }
    ensures released { OnErr result (Follows store.old store.new (named_by_both a b) none) }
    ensures counts { store.new.counts ≡ store.old.counts }
    ensures live { store.new.live ≤ store.old.live }
    ensures store { IsStore store.new }
{
    // It tells the proof that the store is one.
    let _counts = store.counts();
    match pending(f, &a, &b, place, store) {
        Ok(segment) => Ok(segment),
        Err(fault) => {
            a.release(store);
            b.release(store);
            Err(fault)
        }
    }
}

// The pending product of the leaves, which it names once more.
fn pending(f: Dya, a: &Leaf, b: &Leaf, place: Place, store: &Store) -> Result<Segment, OuterFault>
    requires left { IsLawfulLeaf store.now a.now }
    requires right { IsLawfulLeaf store.now b.now }
    ensures limit { (result ≡ Err OuterFault.Limit)
        ↔ (outer_of store.now f a.now b.now ≡ Err error.Limit) }
    ensures pending { IfOk result (IsPendingProduct store.now f place a.now b.now) }
    ensures means { IfOk result (λ segment.
        entry store.now segment ≡ meaning_of place (outer_of store.now f a.now b.now)) }
    ensures lawful { IfOk result (IsLawful store.now) }
    ensures segment { IfOk result IsSegment }
    ensures leaves { IfOk result (λ segment. (key : ℕ)
        → named_by segment key ≡ named_by_both a.now b.now key) }
{
    within_limit(&a.desc().shape, &b.desc().shape)?;
    match joined_over(f, a, b, place, store) {
        Ok(segment) => Ok(segment),
        Err(NoMemory) => Err(OuterFault::NoMemory),
    }
}

// The function of both leaves, each of which is read over the joined lengths.
fn joined_over(f: Dya, a: &Leaf, b: &Leaf, place: Place, store: &Store) -> Result<Segment, NoMemory>
    requires left { IsLawfulLeaf store.now a.now }
    requires right { IsLawfulLeaf store.now b.now }
    requires fits { IsShape (leaf_shape a.now ++ leaf_shape b.now) }
    ensures pending { IfOk result (IsPendingProduct store.now f place a.now b.now) }
    ensures means { IfOk result (λ segment.
        entry store.now segment ≡ meaning_of place (outer_of store.now f a.now b.now)) }
    ensures lawful { IfOk result (IsLawful store.now) }
    ensures segment { IfOk result IsSegment }
    ensures leaves { IfOk result (λ segment. (key : ℕ)
        → named_by segment key ≡ named_by_both a.now b.now key) }
{
    let left = over_right(a, &b.desc().shape, store)?;
    let right = under_left(b, &a.desc().shape, store)?;
    join2(right, left, f, place)
}

// Whether the joined lengths make a shape.
fn within_limit(left: &Shape, right: &Shape) -> Result<(), TooLarge>
    ensures { IsOk result ↔ IsShape (left.now ++ right.now) }
{
    joined_shape(left.allocator(), left.lengths(), right.lengths())?;
    Ok(())
}

// The left leaf, read over the lengths of the right one too.
fn over_right(a: &Leaf, right: &Shape, store: &Store) -> Result<Segment, NoMemory>
    requires lawful { IsLawfulLeaf store.now a.now }
    requires fits { IsShape (leaf_shape a.now ++ right.now) }
    ensures { IfOk result (IsExtended store.now (select.OuterLeft right.now) a.now) }
{
    let by = Selection::OuterLeft {
        right: right.copy(),
    };
    extended(a, &by, store)
}

// The right leaf, read under the lengths of the left one too.
fn under_left(b: &Leaf, left: &Shape, store: &Store) -> Result<Segment, NoMemory>
    requires lawful { IsLawfulLeaf store.now b.now }
    requires fits { IsShape (left.now ++ leaf_shape b.now) }
    ensures { IfOk result (IsExtended store.now (select.OuterRight left.now) b.now) }
{
    let by = Selection::OuterRight { left: left.copy() };
    extended(b, &by, store)
}

// The leaf, read by a selection, as a pending expression.
fn extended(leaf: &Leaf, by: &Selection, store: &Store) -> Result<Segment, NoMemory>
    requires lawful { IsLawfulLeaf store.now leaf.now }
    requires fits { Fits by.now (leaf_shape leaf.now) }
    ensures extended { IfOk result (IsExtended store.now by.now leaf.now) }
{
    let alloc = leaf.desc().shape.allocator();
    let mut segment = Segment::of_leaf(alloc, leaf.copy(), leaf_interval(leaf, store))?;
    select(&mut segment, by);
    Ok(segment)
}
