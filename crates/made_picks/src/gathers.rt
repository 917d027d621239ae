//! Subscripts that are made at once.
ghost use Rattle.std.specs.Prelude.{◌≡◌, ℕ, ◌+◌, ◌*◌, ◌^◌, ◌<◌, ◌≤◌, pos, Ok, Err, [], true, List, length, map, All, IfSome, IfOk, IfErr, OnOk, vec_capacity};
ghost use Rattle.apl_base.specs.Array.{size_of, IsShape};
ghost use Rattle.apl_base.specs.Elements.{gathered};
ghost use Rattle.array_desc.specs.Desc.{IsDesc};
ghost use Rattle.array_store.specs.Stores.{IsStore};
ghost use Rattle.array_store.specs.Counting.{OnlyFetched};
ghost use Rattle.drag_along.specs.Nodes.{leaf_desc, leaf_shape};
ghost use Rattle.drag_along.specs.Lawful.{IsLawfulLeaf};
ghost use Rattle.apl_model.specs.Subscript.{subscript, in_axes, positions_shape, positions_index};
ghost use Rattle.apl_model_laws.specs.Lawful.{IsOrigin};
ghost use Rattle.leaf_names.specs.Variables.{array_of};
ghost use Rattle.made_leaf.specs.Made.{IsMadeBy, Fetched};
ghost use Rattle.made_picks.specs.Picks.{positions_of, elements_named};

use crate::positions::{all_in_axes, any_text, joined_shape, tracks_of};
use crate::walks::pick;
use apl_base::{Cell, ErrorKind, NoMemory, Shape};
use array_store::Store;
use drag_along::Leaf;
use made_fns::leaves::{lengths, rank, shape};
use made_leaf::{MadeFault, make_leaf, room_for};

/// `B[I;J]`: the elements of B at each combination of the places that the positions name, counted from the origin; a
/// position that is left out names its whole axis. The shape is theirs, joined.
///
/// RANK ERROR comes where there is not one position for each axis of B, then DOMAIN ERROR where one has characters, then
/// INDEX ERROR where one names no place of its axis, then LIMIT ERROR where the shape is too large.
pub fn gather(
    b: &Leaf,
    positions: &[Option<Leaf>],
    origin: Cell,
    store: &mut Store,
) -> Result<Leaf, MadeFault>
    requires b { IsLawfulLeaf store.old b.now }
    requires positions { All (λ p. IfSome p (IsLawfulLeaf store.old)) positions.now }
    requires origin { IsOrigin origin }
    ensures made { IsMadeBy (Fetched store.old (2 * elements_named positions.now
        + size_of (positions_shape (leaf_shape b.now) (positions_of store.old positions.now))))
        store.old store.new
        (subscript origin (array_of store.old b.now)
        (positions_of store.old positions.now)) result }
    ensures store { IsStore store.new }
{
    // It tells the proof that the store is one.
    let _counts = store.counts();
    let made = gathered_shape(b, positions, origin, store)?;
    let size = made.size();
    let mut cells = room_for(size, store)?;
    fill_gathered(b, positions, origin, size, store, &mut cells)?;
    Ok(make_leaf(cells, &made, b.kind(), store)?)
}

// The shape of the result, or the error.
fn gathered_shape(
    b: &Leaf,
    positions: &[Option<Leaf>],
    origin: Cell,
    store: &mut Store,
) -> Result<Shape, ErrorKind>
    requires positions { All (λ p. IfSome p (IsLawfulLeaf store.old)) positions.now }
    requires origin { IsOrigin origin }
    ensures shape { IfOk result (λ made. made
        ≡ positions_shape (leaf_shape b.now) (positions_of store.old positions.now)) }
    ensures ranks { OnOk result (length (leaf_shape b.now) ≡ length positions.now) }
    ensures within { OnOk result (in_axes origin (leaf_shape b.now)
        (positions_of store.old positions.now) ≡ true) }
    ensures array { IfOk result (λ made.
        subscript origin (array_of store.old b.now) (positions_of store.old positions.now)
        ≡ Ok (gathered made (positions_index origin (leaf_shape b.now)
        (positions_of store.old positions.now)) (array_of store.old b.now))) }
    ensures refused { IfErr result (λ kind.
        subscript origin (array_of store.old b.now) (positions_of store.old positions.now)
        ≡ Err kind) }
    ensures lawful { OnOk result (IsDesc (leaf_desc b.now)) }
    ensures counted { OnlyFetched store.old store.new (elements_named positions.now) }
    ensures store { IsStore store.new }
{
    // It tells the proof that the store is one.
    let _counts = store.counts();
    if positions.len() != rank(b) {
        return Err(ErrorKind::Rank);
    }
    if any_text(positions) {
        return Err(ErrorKind::Domain);
    }
    if !all_in_axes(lengths(b), positions, origin, store) {
        return Err(ErrorKind::Index);
    }
    match joined_shape(shape(b), positions) {
        Some(made) => Ok(made),
        None => Err(ErrorKind::Limit),
    }
}

// Puts the elements into an empty vector with room for them.
fn fill_gathered(
    b: &Leaf,
    positions: &[Option<Leaf>],
    origin: Cell,
    size: u64,
    store: &mut Store,
    cells: &mut Vec<Cell>,
) -> Result<(), NoMemory>
    requires b { IsLawfulLeaf store.old b.now }
    requires positions { All (λ p. IfSome p (IsLawfulLeaf store.old)) positions.now }
    requires origin { IsOrigin origin }
    requires ranks { length (leaf_shape b.now) ≡ length positions.now }
    requires within { in_axes origin (leaf_shape b.now) (positions_of store.old positions.now)
        ≡ true }
    requires size { size ≡ size_of (positions_shape (leaf_shape b.now)
        (positions_of store.old positions.now)) }
    requires few { size ≤ 2 ^ 40 }
    requires empty { cells.old.items ≡ [] }
    requires room { size ≤ vec_capacity cells.old }
    ensures cells { OnOk result (cells.new.items
        ≡ (gathered (positions_shape (leaf_shape b.now) (positions_of store.old positions.now))
        (positions_index origin (leaf_shape b.now) (positions_of store.old positions.now))
        (array_of store.old b.now)).cells) }
    ensures counted { OnlyFetched store.old store.new (elements_named positions.now + size) }
    ensures store { IsStore store.new }
{
    // It tells the proof that the store is one.
    let _counts = store.counts();
    if size == 0 {
        return Ok(());
    }
    let desc = b.desc();
    let tracks = tracks_of(&desc.shape, positions, origin, store)?;
    pick(b, desc, 0, desc.base, tracks.as_slice(), 0, store, cells);
    Ok(())
}
