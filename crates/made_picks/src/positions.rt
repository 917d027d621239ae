//! Positions of a subscript: what is asked of them, and their tracks.
ghost use Rattle.std.specs.Prelude.{◌≡◌, ℕ, ◌+◌, ◌^◌, ◌<◌, ◌≤◌, pos, ◌-ℤ◌, true, length, map, All, Some, None, IfSome, IfOk, IfNone, slice_index, slice_index_or};
ghost use Rattle.std.specs.List.{list_any};
ghost use Rattle.std.specs.Option.{option_map};
ghost use Rattle.apl_base.specs.Array.{IsShape};
ghost use Rattle.apl_base.specs.Selection.{upward};
ghost use Rattle.array_store.specs.Stores.{IsStore, StoreView};
ghost use Rattle.array_store.specs.Counting.{OnlyFetched};
ghost use Rattle.drag_along.specs.Lawful.{IsLawfulLeaf};
ghost use Rattle.apl_model.specs.Subscript.{is_text_position, in_axis, in_axes, axes_of, positions_shape};
ghost use Rattle.apl_model_laws.specs.Lawful.{IsOrigin};
ghost use Rattle.leaf_names.specs.Variables.{array_of};
ghost use Rattle.made_picks.specs.Picks.{positions_of, elements_at, elements_named};
ghost use Rattle.made_picks.specs.Tracks.{places_on, named_on, named_along, FitsAxis, FitAxes};

use crate::tracks::Track;
use apl_base::{Cell, NoMemory, Shape};
use array_desc::Desc;
use array_store::Store;
use drag_along::Leaf;
use made_fns::leaves::{elements, is_text, lengths};
use made_fns::scans::all_between;
use made_leaf::read_cells;
use smallvec::SmallVec;

/// Whether a position has characters.
pub fn any_text(positions: &[Option<Leaf>]) -> bool
    ensures { (store : StoreView)
        → result ≡ list_any is_text_position (positions_of store positions.now) }
{
    for position in positions {
        if is_text_at(position) {
            return true;
        }
    }
    false
}

// Whether this one has.
fn is_text_at(position: &Option<Leaf>) -> bool
    ensures { (store : StoreView)
        → result ≡ is_text_position (option_map (array_of store) position.now) }
{
    match position {
        Some(leaf) => is_text(leaf),
        None => false,
    }
}

/// Whether each position names places of its axis alone, counted from the origin. Each of its elements is fetched once.
pub fn all_in_axes(
    axes: &[u64],
    positions: &[Option<Leaf>],
    origin: Cell,
    store: &mut Store,
) -> bool
    requires axes { length axes.now ≡ length positions.now }
    requires each { All (λ n. n ≤ 2 ^ 40) axes.now }
    requires lawful { All (λ p. IfSome p (IsLawfulLeaf store.old)) positions.now }
    requires origin { IsOrigin origin }
    ensures value { result ≡ in_axes origin axes.now (positions_of store.old positions.now) }
    ensures counted { OnlyFetched store.old store.new (elements_named positions.now) }
    ensures store { IsStore store.new }
{
    // It tells the proof that the store is one.
    let _counts = store.counts();
    for (axis, position) in positions.iter().enumerate() {
        if !is_in_axis(axes[axis], position, origin, store) {
            return false;
        }
    }
    true
}

// Whether this one does, on an axis of length n.
fn is_in_axis(n: u64, position: &Option<Leaf>, origin: Cell, store: &mut Store) -> bool
    requires axis { n ≤ 2 ^ 40 }
    requires lawful { IfSome position.now (IsLawfulLeaf store.old) }
    requires origin { IsOrigin origin }
    ensures value { result ≡ in_axis origin n (option_map (array_of store.old) position.now) }
    ensures counted { OnlyFetched store.old store.new (elements_at position.now) }
    ensures store { IsStore store.new }
{
    // It tells the proof that the store is one.
    let _counts = store.counts();
    match position {
        Some(leaf) => all_between(leaf, origin, origin + Cell::from(n) - 1, store),
        None => true,
    }
}

/// The shape that positions give: theirs joined, with the whole axis where one is left out; none where that is no shape.
pub fn joined_shape(axes: &Shape, positions: &[Option<Leaf>]) -> Option<Shape>
    requires { length axes.now ≡ length positions.now }
    ensures shape { IfSome result (λ shape. (store : StoreView)
        → shape ≡ positions_shape axes.now (positions_of store positions.now)) }
    ensures lawful { IfSome result IsShape }
    ensures none { IfNone result ((store : StoreView)
        → ¬ (IsShape (positions_shape axes.now (positions_of store positions.now)))) }
{
    let mut joined = SmallVec::<u64, 8>::new(axes.allocator());
    for (axis, position) in positions.iter().enumerate() {
        let more = axes_at(axes.lengths(), axis, position);
        if joined.len() + more.len() > 8 {
            return None;
        }
        let Ok(()) = joined.extend_from_slice(more) else {
            unreachable!()
        };
    }
    Shape::of(axes.allocator(), joined.as_slice()).ok()
}

// The axes that a position gives.
fn axes_at<'a>(axes: &'a [u64], axis: usize, position: &'a Option<Leaf>) -> &'a [u64]
    requires { axis < length axes.now }
    ensures { (store : StoreView) → result.now
        ≡ axes_of (slice_index axes.now axis) (option_map (array_of store) position.now) }
{
    match position {
        Some(leaf) => lengths(leaf),
        None => &axes[axis..axis + 1],
    }
}

/// The tracks of positions that name places of their axes alone. Each element of one is fetched once. After want of
/// memory the store is unchanged but for its counts.
pub fn tracks_of(
    axes: &Shape,
    positions: &[Option<Leaf>],
    origin: Cell,
    store: &mut Store,
) -> Result<Vec<Track>, NoMemory>
    requires axes { length axes.now ≡ length positions.now }
    requires lawful { All (λ p. IfSome p (IsLawfulLeaf store.old)) positions.now }
    requires origin { IsOrigin origin }
    requires within { in_axes origin axes.now (positions_of store.old positions.now) ≡ true }
    ensures places { IfOk result (λ tracks. map places_on tracks.items
        ≡ named_along origin axes.now (positions_of store.old positions.now)) }
    ensures fits { IfOk result (λ tracks. FitAxes axes.now tracks.items) }
    ensures counted { OnlyFetched store.old store.new (elements_named positions.now) }
    ensures store { IsStore store.new }
{
    // It tells the proof that the store is one.
    let _counts = store.counts();
    let mut tracks = Vec::with_capacity(axes.allocator(), positions.len())?;
    for (axis, position) in positions.iter().enumerate() {
        let track = track_of(axes.len(axis), position, origin, store)?;
        let Ok(()) = tracks.push(track) else {
            unreachable!()
        };
    }
    Ok(tracks)
}

// The track of this one, on an axis of length n.
fn track_of(
    n: u64,
    position: &Option<Leaf>,
    origin: Cell,
    store: &mut Store,
) -> Result<Track, NoMemory>
    requires axis { n ≤ 2 ^ 40 }
    requires lawful { IfSome position.now (IsLawfulLeaf store.old) }
    requires origin { IsOrigin origin }
    requires within { in_axis origin n (option_map (array_of store.old) position.now) ≡ true }
    ensures places { IfOk result (λ track. places_on track
        ≡ named_on origin n (option_map (array_of store.old) position.now)) }
    ensures fits { IfOk result (FitsAxis n) }
    ensures counted { OnlyFetched store.old store.new (elements_at position.now) }
    ensures store { IsStore store.new }
{
    // It tells the proof that the store is one.
    let _counts = store.counts();
    let Some(leaf) = position else {
        return Ok(whole_axis(n));
    };
    // It tells the proof that there are few.
    let _count = elements(leaf);
    if let Some(track) = line_of(leaf, origin) {
        return Ok(track);
    }
    let values = read_cells(leaf, store)?;
    Ok(Track::Listed { values, origin })
}

// The track of a whole axis of length n.
fn whole_axis(n: u64) -> Track
    requires { n ≤ 2 ^ 40 }
    ensures places { places_on result ≡ map (λ i. Some (pos i)) (upward 0 n) }
    ensures fits { FitsAxis n result }
{
    Track::Line {
        before: 0,
        from: 0,
        step: 1,
        count: n,
        after: 0,
    }
}

// The track of a leaf without an owner and with one axis at most, which needs no list.
fn line_of(leaf: &Leaf, origin: Cell) -> Option<Track>
    requires { IsOrigin origin }
    ensures places { IfSome result (λ track. (store : StoreView) → places_on track
        ≡ map (λ v. Some (v -ℤ origin)) (array_of store leaf.now).cells) }
    ensures line { IfSome result (λ track. (n : ℕ) (store : StoreView)
        → in_axis origin n (Some (array_of store leaf.now)) ≡ true → FitsAxis n track) }
{
    let Leaf::Gen { desc, .. } = leaf else {
        return None;
    };
    if desc.shape.rank() > 1 {
        return None;
    }
    Some(Track::Line {
        before: 0,
        from: desc.base - origin,
        step: first_stride(desc),
        count: desc.size(),
        after: 0,
    })
}

// The stride of the first axis, or 0 where there is none.
fn first_stride(desc: &Desc) -> Cell
    ensures { result ≡ slice_index_or desc.now.strides 0 (pos 0) }
{
    match desc.strides.first() {
        Some(stride) => *stride,
        None => 0,
    }
}
