//! `A↑B`, made at once.
ghost use Rattle.std.specs.Prelude.{◌≡◌, ℕ, ◌+◌, ◌*◌, ◌^◌, ◌<◌, ◌≤◌, List, All, Ok, Err, [], length, map, replicate, unsigned_abs, IfOk, IfErr, OnOk, vec_capacity};
ghost use Rattle.apl_base.specs.Array.{size_of, cell_at, IsIndex, IsShape};
ghost use Rattle.array_desc.specs.Desc.{IsDesc, number as number_of};
ghost use Rattle.array_store.specs.Stores.{IsStore, StoreView};
ghost use Rattle.array_store.specs.Counting.{OnlyFetched};
ghost use Rattle.drag_along.specs.Nodes.{leaf_desc, leaf_shape};
ghost use Rattle.drag_along.specs.Lawful.{IsLawfulLeaf};
ghost use Rattle.apl_model.specs.Made.{take_or_pad, with_shape};
ghost use Rattle.leaf_names.specs.Variables.{array_of};
ghost use Rattle.made_leaf.specs.Made.{IsMadeBy, Fetched};
ghost use Rattle.made_fns.specs.Answers.{elements_in, lengths_named};
ghost use Rattle.made_picks.specs.Picks.{cell_by, IsReached};
ghost use Rattle.made_picks.specs.Tracks.{places_on, FitAxes};
ghost use Rattle.made_picks.specs.Taken.{taken_array, taken_along, axes_to_take};

use crate::reads::push_blanks;
use crate::tracks::Track;
use crate::walks::pick;
use crate::windows::window;
use apl_base::{Cell, ErrorKind, NoMemory, Shape};
use array_desc::Desc;
use array_store::Store;
use drag_along::Leaf;
use made_fns::leaves::{elements, is_text, rank};
use made_fns::{blank_of, named_shape};
use made_leaf::{MadeFault, make_leaf, read_block, room_for};
use std::alloc::Global;

/// `A↑B`: of each axis of B the first elements, as many as A's number for it says, or the last ones where that is
/// negative. Where B has fewer, zeros or blanks stand at the far end. A scalar is taken as an array of one element, with as
/// many axes as A has numbers.
///
/// RANK ERROR comes where A has more than one axis, then LENGTH ERROR where it has not one number for each axis of B, then
/// DOMAIN ERROR where it has characters, then LIMIT ERROR where the shape is too large.
pub fn overtake(a: &Leaf, b: &Leaf, store: &mut Store) -> Result<Leaf, MadeFault>
    requires a { IsLawfulLeaf store.old a.now }
    requires b { IsLawfulLeaf store.old b.now }
    ensures made { IsMadeBy
        (Fetched store.old (2 * elements_in a.now + size_of (lengths_named
        (array_of store.old a.now))))
        store.old store.new
        (take_or_pad (array_of store.old a.now) (array_of store.old b.now)) result }
    ensures store { IsStore store.new }
{
    // It tells the proof that the store is one.
    let _counts = store.counts();
    let shape = taken_shape(a, b, store)?;
    let size = shape.size();
    let mut cells = room_for(size, store)?;
    fill_taken(a, b, size, store, &mut cells)?;
    Ok(make_leaf(cells, &shape, b.kind(), store)?)
}

// The shape of the result, or the error.
fn taken_shape(a: &Leaf, b: &Leaf, store: &mut Store) -> Result<Shape, ErrorKind>
    requires a { IsLawfulLeaf store.old a.now }
    ensures shape { IfOk result (λ shape. shape ≡ lengths_named (array_of store.old a.now)) }
    ensures lawful { OnOk result (IsDesc (leaf_desc b.now)) }
    ensures counts { OnOk result (elements_in a.now
        ≡ length (axes_to_take (elements_in a.now) (leaf_shape b.now))) }
    ensures array { OnOk result (take_or_pad (array_of store.old a.now) (array_of store.old b.now)
        ≡ Ok (taken_array (array_of store.old a.now) (array_of store.old b.now))) }
    ensures refused { IfErr result (λ kind.
        take_or_pad (array_of store.old a.now) (array_of store.old b.now) ≡ Err kind) }
    ensures counted { OnlyFetched store.old store.new (elements_in a.now) }
    ensures store { IsStore store.new }
{
    // It tells the proof that the store is one.
    let _counts = store.counts();
    let axes = rank(b);
    if rank(a) > 1 {
        return Err(ErrorKind::Rank);
    }
    if axes > 0 && elements(a) != axes as u64 {
        return Err(ErrorKind::Length);
    }
    if is_text(a) {
        return Err(ErrorKind::Domain);
    }
    named_shape(a, store)
}

// Puts the elements into an empty vector with room for them.
fn fill_taken(
    a: &Leaf,
    b: &Leaf,
    size: u64,
    store: &mut Store,
    cells: &mut Vec<Cell>,
) -> Result<(), NoMemory>
    requires a { IsLawfulLeaf store.old a.now }
    requires b { IsLawfulLeaf store.old b.now }
    requires counts { elements_in a.now
        ≡ length (axes_to_take (elements_in a.now) (leaf_shape b.now)) }
    requires shape { IsShape (lengths_named (array_of store.old a.now)) }
    requires size { size ≡ size_of (lengths_named (array_of store.old a.now)) }
    requires empty { cells.old.items ≡ [] }
    requires room { size ≤ vec_capacity cells.old }
    ensures cells { OnOk result (cells.new.items
        ≡ (taken_array (array_of store.old a.now) (array_of store.old b.now)).cells) }
    ensures counted { OnlyFetched store.old store.new (elements_in a.now + size) }
    ensures store { IsStore store.new }
{
    // It tells the proof that the store is one.
    let _counts = store.counts();
    let blank = blank_of(b.kind());
    if size == 0 {
        return Ok(());
    }
    if elements(b) == 0 {
        push_blanks(size, blank, cells);
        return Ok(());
    }
    let desc = taken_desc(b, elements(a));
    let tracks = windows_of(a, &desc.shape, store)?;
    pick(
        b,
        &desc,
        0,
        desc.base,
        tracks.as_slice(),
        blank,
        store,
        cells,
    );
    Ok(())
}

// The descriptor of an array, where one without axes gets so many axes of one element.
fn taken_desc(b: &Leaf, count: u64) -> Desc
    requires { count ≤ 8 }
    ensures shape { result.shape ≡ axes_to_take count (leaf_shape b.now) }
    ensures reached { (store : StoreView) → IsLawfulLeaf store b.now
        → IsReached store b.now result.shape result.strides result.base }
    ensures cells { (store : StoreView) (is : List ℕ) → IsIndex result.shape is
        → cell_by store b.now (number_of result is)
        ≡ cell_at (with_shape (array_of store b.now) result.shape) is }
    ensures lawful { IsDesc result }
{
    let whole = b.desc();
    let alloc = whole.shape.allocator();
    let axes = whole.shape.rank();
    let mut desc = whole.copy();
    if axes == 0 {
        desc.extend(&ones(alloc, count));
    }
    desc
}

// The shape of so many axes of one element.
fn ones(alloc: Global, count: u64) -> Shape
    requires { count ≤ 8 }
    ensures { result ≡ replicate count 1 }
{
    match Shape::of(alloc, &[1; 8][..count as usize]) {
        Ok(shape) => shape,
        Err(_) => unreachable!(),
    }
}

// The tracks that A's numbers take of axes. It fetches each of them once. After want of memory the store is unchanged but
// for its counts.
fn windows_of(a: &Leaf, axes: &Shape, store: &mut Store) -> Result<Vec<Track>, NoMemory>
    requires a { IsLawfulLeaf store.old a.now }
    requires counts { elements_in a.now ≡ length axes.now }
    requires lengths { IsShape (lengths_named (array_of store.old a.now)) }
    ensures places { IfOk result (λ tracks. map places_on tracks.items
        ≡ taken_along axes.now (array_of store.old a.now).cells) }
    ensures fits { IfOk result (λ tracks. FitAxes axes.now tracks.items) }
    ensures counted { OnlyFetched store.old store.new (elements_in a.now) }
    ensures store { IsStore store.new }
{
    // It tells the proof that the store is one.
    let _counts = store.counts();
    let mut block = [0; 8];
    let counts = &mut block[..axes.rank()];
    read_block(a, 0, store, counts);
    windows(axes, counts)
}

// The tracks that take so many elements of each axis.
fn windows(axes: &Shape, counts: &[Cell]) -> Result<Vec<Track>, NoMemory>
    requires counts { length counts.now ≡ length axes.now }
    requires lengths { All (λ n. n ≤ 2 ^ 40) (map unsigned_abs counts.now) }
    ensures places { IfOk result (λ tracks. map places_on tracks.items
        ≡ taken_along axes.now counts.now) }
    ensures fits { IfOk result (λ tracks. FitAxes axes.now tracks.items) }
{
    let mut tracks = Vec::with_capacity(axes.allocator(), counts.len())?;
    for (axis, count) in counts.iter().enumerate() {
        let Ok(()) = tracks.push(window(axes.len(axis), *count)) else {
            unreachable!()
        };
    }
    Ok(tracks)
}
