//! The errors of an indexed assignment.

ghost use Rattle.std.specs.Prelude.{◌≡◌, ◌≤◌, ℕ, List, Err, length, sum_by, All, IfSome, IfOk, IfErr, MatchOption};
ghost use Rattle.apl_base.specs.Array.{IsShape};
ghost use Rattle.array_store.specs.Counting.{OnlyCounted};
ghost use Rattle.array_store.specs.Stores.{IsStore, StoreView};
ghost use Rattle.drag_along.specs.Lawful.{IsLawfulLeaf};
ghost use Rattle.apl_model.specs.Made.{kinds_differ};
ghost use Rattle.apl_model.specs.Subscript.{replacement};
ghost use Rattle.apl_model_laws.specs.Lawful.{IsOrigin};
ghost use Rattle.leaf_names.specs.Variables.{array_of};
ghost use Rattle.made_picks.specs.Picks.{positions_of};
ghost use Rattle.replacing_steps.specs.Checks.{CanReplace, IsFit, axes_given};

use apl_base::{Cell, ErrorKind, Shape};
use array_store::Store;
use drag_along::Leaf;
use made_fns::leaves::{elements, lengths, rank, shape};
use made_picks::{all_in_axes, any_text, joined_shape};

/// The shape that positions select of an array to which a value is to be written there. Errors come in this order: RANK
/// ERROR where there is not one position for each axis, or the value has not one element and its rank is not that of the
/// shape; LENGTH ERROR where then its shape is another; DOMAIN ERROR where a position is characters, or array and value
/// have elements of different kinds; INDEX ERROR where a position names no place of its axis; LIMIT ERROR where the
/// lengths selected make no shape. It takes no memory.
pub fn shape_selected(
    array: &Leaf,
    positions: &[Option<Leaf>],
    value: &Leaf,
    origin: Cell,
    store: &mut Store,
) -> Result<Shape, ErrorKind>
    requires positions { All (λ p. IfSome p (IsLawfulLeaf store.old)) positions.now }
    requires origin { IsOrigin origin }
    ensures can { IfOk result (CanReplace origin (array_of store.old array.now)
        (positions_of store.old positions.now) (array_of store.old value.now)) }
    ensures refused { IfErr result (λ kind. replacement origin (array_of store.old array.now)
        (positions_of store.old positions.now) (array_of store.old value.now) ≡ Err kind) }
    ensures counted { OnlyCounted store.old store.new }
    ensures store { IsStore store.new }
{
    // It tells the proof that the store is one.
    let _counts = store.counts();
    if positions.len() != rank(array) {
        return Err(ErrorKind::Rank);
    }
    let selected = joined_shape(shape(array), positions);
    if let Some(kind) = fit_error(value, joined_rank(positions), &selected) {
        return Err(kind);
    }
    if any_text(positions) || differ(array, value) {
        return Err(ErrorKind::Domain);
    }
    if !all_in_axes(lengths(array), positions, origin, store) {
        return Err(ErrorKind::Index);
    }
    match selected {
        Some(selected) => Ok(selected),
        None => Err(ErrorKind::Limit),
    }
}

// How many lengths positions give together, which may be too many for a shape.
fn joined_rank(positions: &[Option<Leaf>]) -> usize
    requires { length positions.now ≤ 8 }
    ensures { result ≡ sum_by axes_given positions.now }
{
    let mut sum = 0;
    for position in positions {
        sum += rank_given(position);
    }
    sum
}

// How many lengths a position gives.
fn rank_given(position: &Option<Leaf>) -> usize
    ensures rank { result ≡ axes_given position.now }
    ensures few { result ≤ 8 }
{
    match position {
        Some(leaf) => rank(leaf),
        None => 1,
    }
}

// The error of a value that has neither one element nor the shape selected, which has so many lengths, and is none where
// these make no shape.
fn fit_error(value: &Leaf, joined: usize, selected: &Option<Shape>) -> Option<ErrorKind>
    ensures { (store : StoreView) (ns : List ℕ) → joined ≡ length ns
        → MatchOption selected.now (¬ (IsShape ns)) (λ s. s ≡ ns)
        → IsFit (array_of store value.now) ns result }
{
    if elements(value) == 1 {
        return None;
    }
    if rank(value) != joined {
        return Some(ErrorKind::Rank);
    }
    match selected {
        Some(selected) if selected.lengths() == lengths(value) => None,
        _ => Some(ErrorKind::Length),
    }
}

// Whether two leaves have elements, and these are of different kinds.
fn differ(one: &Leaf, other: &Leaf) -> bool
    ensures { (store : StoreView)
        → result ≡ kinds_differ (array_of store one.now) (array_of store other.now) }
{
    elements(one) != 0 && elements(other) != 0 && one.kind() != other.kind()
}
