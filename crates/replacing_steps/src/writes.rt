//! A value that is written to the places that positions select.

ghost use Rattle.std.specs.Prelude.{◌≡◌, ◌^◌, ◌<◌, ◌≤◌, ◌⊎◌, length, All, IfSome, OnOk};
ghost use Rattle.apl_base.specs.Array.{size_of};
ghost use Rattle.apl_base.specs.Elements.{indices};
ghost use Rattle.array_desc.specs.Desc.{IsWhole};
ghost use Rattle.array_store.specs.Stores.{IsStore, holders_of, cells_of, kind_of};
ghost use Rattle.drag_along.specs.Lawful.{IsLawfulLeaf};
ghost use Rattle.drag_along.specs.Nodes.{leaf_kind, leaf_shape};
ghost use Rattle.drag_along.specs.Views.{owner_array};
ghost use Rattle.apl_model.specs.Subscript.{replaced};
ghost use Rattle.apl_model_laws.specs.Lawful.{IsOrigin};
ghost use Rattle.leaf_names.specs.Variables.{array_of};
ghost use Rattle.made_picks.specs.Picks.{positions_of};
ghost use Rattle.made_picks.specs.Tracks.{FitAxes};
ghost use Rattle.replacing_steps.specs.Checks.{CanReplace};
ghost use Rattle.replacing_steps.specs.Writes.{NamesEach, WritesCells, places_by, places_in, value_by, written};

use crate::walks::write_along;
use apl_base::{Cell, NoMemory, Shape};
use array_desc::Desc;
use array_store::{OwnerId, Store};
use drag_along::Leaf;
use made_fns::leaves::elements;
use made_leaf::{read_block, read_cells};
use made_picks::{Track, tracks_of};

/// Writes a value to the places of an owner's array that the positions select, one after the other in row-major order of
/// the shape that they select, so that the last one stays. A value of one element goes to all. Positions and value are
/// read before. After want of memory nothing was written.
pub fn write_selected(
    owner: OwnerId,
    desc: &Desc,
    positions: &[Option<Leaf>],
    value: &Leaf,
    selected: &Shape,
    origin: Cell,
    store: &mut Store,
) -> Result<(), NoMemory>
    requires alone { holders_of store.old owner ≡ 1 }
    requires whole { IsWhole desc.now.shape desc.now }
    requires fills { length (cells_of store.old owner) ≡ size_of desc.now.shape }
    requires positions { All (λ p. IfSome p (IsLawfulLeaf store.old)) positions.now }
    requires value { IsLawfulLeaf store.old value.now }
    requires origin { IsOrigin origin }
    requires can { CanReplace origin (owner_array store.old owner desc.now.shape)
        (positions_of store.old positions.now) (array_of store.old value.now) selected.now }
    ensures written { OnOk result (WritesCells store.old store.new owner
        (replaced origin (owner_array store.old owner desc.now.shape)
        (positions_of store.old positions.now) (array_of store.old value.now)
        (indices selected.now) (cells_of store.old owner))) }
    ensures limit { store.new.limit ≡ store.old.limit }
    ensures store { IsStore store.new }
{
    // It tells the proof that the store is one.
    let _counts = store.counts();
    if selected.size() == 0 {
        return Ok(());
    }
    let tracks = tracks_of(&desc.shape, positions, origin, store)?;
    write_value(owner, desc, tracks.as_slice(), value, store)
}

// Writes a value to the places that tracks name along all axes of a descriptor.
fn write_value(
    owner: OwnerId,
    desc: &Desc,
    tracks: &[Track],
    value: &Leaf,
    store: &mut Store,
) -> Result<(), NoMemory>
    requires alone { holders_of store.old owner ≡ 1 }
    requires whole { IsWhole desc.now.shape desc.now }
    requires fills { length (cells_of store.old owner) ≡ size_of desc.now.shape }
    requires some { 0 < size_of desc.now.shape }
    requires fits { FitAxes desc.now.shape tracks.now }
    requires named { All NamesEach tracks.now }
    requires few { places_in tracks.now ≤ 2 ^ 40 }
    requires value { IsLawfulLeaf store.old value.now }
    requires kind { leaf_kind value.now ≡ kind_of store.old owner }
    requires count { (size_of (leaf_shape value.now) ≡ 1)
        ⊎ (size_of (leaf_shape value.now) ≡ places_in tracks.now) }
    ensures written { OnOk result (WritesCells store.old store.new owner
        (written (value_by (array_of store.old value.now).cells) 0
        (places_by desc.now.strides tracks.now desc.now.base) (cells_of store.old owner))) }
    ensures limit { store.new.limit ≡ store.old.limit }
    ensures store { IsStore store.new }
{
    // It tells the proof that the store is one.
    let _counts = store.counts();
    if elements(value) == 1 {
        let mut cell = [0];
        read_block(value, 0, store, &mut cell);
        write_along(owner, desc, 0, desc.base, tracks, &cell, 0, store);
        return Ok(());
    }
    let cells = read_cells(value, store)?;
    write_along(
        owner,
        desc,
        0,
        desc.base,
        tracks,
        cells.as_slice(),
        0,
        store,
    );
    Ok(())
}
