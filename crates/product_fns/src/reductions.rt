//! Reductions.
ghost use Rattle.std.specs.Prelude.{◌≡◌, ◌<◌, ◌≤◌, ◌↔◌, ℕ, length, remove, pos, [], IsOk, IfOk, OnOk, IfSome, IfNone, vec_capacity};
ghost use Rattle.apl_base.specs.declared.faults.ErrorKind.TheVariants as error;
ghost use Rattle.apl_base.specs.declared.rows.Dya.{Dya};
ghost use Rattle.apl_base.specs.Array.{IsShape, size_of};
ghost use Rattle.array_store.specs.Stores.{IsStore, HasRoom, counted};
ghost use Rattle.drag_along.specs.Nodes.{leaf_shape};
ghost use Rattle.drag_along.specs.Lawful.{IsLawfulLeaf};
ghost use Rattle.apl_model.specs.Made.{on_axis};
ghost use Rattle.apl_model.specs.Whole.{Answer};
ghost use Rattle.made_leaf.specs.Made.{IsMadeAsking};
ghost use Rattle.product_fns.specs.Folding.{reduced_kind};
ghost use Rattle.product_fns.specs.Reduction.{reduce_of, reduced_shape, reduce_applications, Applied, AsksForShape, IsAxisOf, IsReducedAlong, along_applications};

use crate::groups::fill_results;
use apl_base::{Cell, Dya, ErrorKind, Kind, Shape, TooLarge};
use apl_model::Axis;
use array_store::Store;
use drag_along::Leaf;
use e_machine::own;
use made_leaf::{MadeFault, make_leaf, room_for};
use smallvec::SmallVec;

/// `f/B`, `f/[K]B`, `f⌿B`: along an axis b1 f (b2 f (.. bn)), one element as it is, and for none the identity; a scalar
/// stays as it is. The answer is the language's. RANK and LIMIT ERROR come before room is asked for, DOMAIN ERROR after:
/// `WsFull` comes exactly where the shape of the result is lawful and there is no room for its elements.
pub fn reduce(f: Dya, axis: Axis, b: &Leaf, store: &mut Store) -> Result<Leaf, MadeFault>
    requires { IsLawfulLeaf store.old b.now }
    ensures answer { IsMadeAsking
        (Applied store.old (reduce_applications axis (leaf_shape b.now)) (size_of (leaf_shape b.now)))
        (AsksForShape (reduce_of store.old f axis b.now) (reduced_shape axis (leaf_shape b.now)))
        store.old store.new (reduce_of store.old f axis b.now) result }
    ensures applied { OnOk result (store.new.counts.applied
        ≡ counted store.old.counts.applied (reduce_applications axis (leaf_shape b.now))) }
    ensures store { IsStore store.new }
{
    // It tells the proof that the store is one.
    let _counts = store.counts();
    let rank = b.desc().shape.rank();
    if rank == 0 {
        return reduce_scalar(axis, b, store);
    }
    let Some(number) = number_of(axis, rank) else {
        return Err(MadeFault::Error {
            kind: ErrorKind::Rank,
        });
    };
    reduce_along(f, number, b, store)
}

// Which axis it is, of at least one, counted from 0; none where there is no such axis.
fn number_of(axis: Axis, rank: usize) -> Option<usize>
    requires some { 0 < rank }
    requires few { rank ≤ 8 }
    ensures found { IfSome result (IsAxisOf axis rank) }
    ensures missing { IfNone result ((make : ℕ → Answer)
        → on_axis (pos 1) axis rank make ≡ Err error.Rank) }
{
    match axis {
        Axis::Last => Some(rank - 1),
        Axis::First => Some(0),
        Axis::Numbered { k } => {
            if 1 <= k && k <= rank as Cell {
                Some((k - 1) as usize)
            } else {
                None
            }
        }
    }
}

// A scalar stays as it is. It has no axis that a number names.
fn reduce_scalar(axis: Axis, b: &Leaf, store: &mut Store) -> Result<Leaf, MadeFault>
    requires lawful { IsLawfulLeaf store.old b.now }
    requires scalar { leaf_shape b.now ≡ [] }
    ensures answer { (f : Dya) → IsMadeAsking (Applied store.old 0 1)
        (AsksForShape (reduce_of store.old f axis b.now) [])
        store.old store.new (reduce_of store.old f axis b.now) result }
    ensures applied { OnOk result (store.new.counts.applied
        ≡ counted store.old.counts.applied 0) }
    ensures store { IsStore store.new }
{
    // It tells the proof that the counts are numbers of a machine.
    let _counts = store.counts();
    if let Axis::Numbered { .. } = axis {
        return Err(MadeFault::Error {
            kind: ErrorKind::Rank,
        });
    }
    match own(b, store) {
        Ok(leaf) => Ok(leaf),
        Err(refused) => Err(MadeFault::from(refused)),
    }
}

// A reduction along an axis, counted from 0.
fn reduce_along(f: Dya, axis: usize, b: &Leaf, store: &mut Store) -> Result<Leaf, MadeFault>
    requires lawful { IsLawfulLeaf store.old b.now }
    requires axis { axis < length (leaf_shape b.now) }
    ensures answer { IsReducedAlong store.old store.new f axis b.now result }
    ensures applied { OnOk result (store.new.counts.applied
        ≡ counted store.old.counts.applied (along_applications axis (leaf_shape b.now))) }
    ensures store { IsStore store.new }
{
    // It tells the proof that the store is one.
    let _counts = store.counts();
    let Ok(left) = shape_without(&b.desc().shape, axis) else {
        return Err(MadeFault::Error {
            kind: ErrorKind::Limit,
        });
    };
    reduce_within(f, axis, b, &left, store)
}

// The same where the lengths of the result make a shape.
fn reduce_within(
    f: Dya,
    axis: usize,
    b: &Leaf,
    left: &Shape,
    store: &mut Store,
) -> Result<Leaf, MadeFault>
    requires lawful { IsLawfulLeaf store.old b.now }
    requires axis { axis < length (leaf_shape b.now) }
    requires left { left.now ≡ remove (leaf_shape b.now) axis }
    requires fits { IsShape left.now }
    ensures answer { IsReducedAlong store.old store.new f axis b.now result }
    ensures applied { OnOk result (store.new.counts.applied
        ≡ counted store.old.counts.applied (along_applications axis (leaf_shape b.now))) }
    ensures store { IsStore store.new }
{
    match room_for(left.size(), store) {
        Ok(cells) => reduce_into(f, axis, b, &b.desc().shape, left, cells, store),
        Err(refused) => Err(refused),
    }
}

// The lengths without those of an axis, as a shape: there is one exactly where these make one.
fn shape_without(shape: &Shape, axis: usize) -> Result<Shape, TooLarge>
    requires { axis < length shape.now }
    ensures value { IfOk result (λ left. left ≡ remove shape.now axis) }
    ensures exact { IsOk result ↔ IsShape (remove shape.now axis) }
{
    let mut lengths: SmallVec<u64, 8> = SmallVec::new(shape.allocator());
    for n in shape.lengths() {
        lengths.push_reserved(*n);
    }
    let _gone = lengths.remove(axis);
    Shape::of(shape.allocator(), lengths.as_slice())
}

// A reduction along an axis into an empty vector that has room for the result.
fn reduce_into(
    f: Dya,
    axis: usize,
    b: &Leaf,
    shape: &Shape,
    left: &Shape,
    cells: Vec<Cell>,
    store: &mut Store,
) -> Result<Leaf, MadeFault>
    requires lawful { IsLawfulLeaf store.old b.now }
    requires shape { shape.now ≡ leaf_shape b.now }
    requires axis { axis < length shape.now }
    requires left { left.now ≡ remove shape.now axis }
    requires fits { IsShape left.now }
    requires empty { cells.items ≡ [] }
    requires capacity { size_of left.now ≤ vec_capacity cells }
    requires room { HasRoom store.old (size_of left.now) }
    ensures answer { IsReducedAlong store.old store.new f axis b.now result }
    ensures applied { OnOk result (store.new.counts.applied
        ≡ counted store.old.counts.applied (along_applications axis (leaf_shape b.now))) }
    ensures store { IsStore store.new }
{
    let mut results = cells;
    let Ok(()) = results.resize(left.size() as usize, 0) else {
        unreachable!()
    };
    match fill_results(f, axis, b, shape, store, results.as_mut_slice()) {
        Ok(true) => {
            let kind = kind_of(b.kind(), shape.len(axis));
            match make_leaf(results, left, kind, store) {
                Ok(leaf) => Ok(leaf),
                Err(_) => Err(MadeFault::NoMemory),
            }
        }
        Ok(false) => Err(MadeFault::Error {
            kind: ErrorKind::Domain,
        }),
        Err(_) => Err(MadeFault::NoMemory),
    }
}

// The kind of a reduction of n elements of a kind.
fn kind_of(kind: Kind, n: u64) -> Kind
    ensures { result ≡ reduced_kind kind n }
{
    if n == 1 { kind } else { Kind::Num }
}
