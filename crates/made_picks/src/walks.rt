//! Elements of a leaf at all combinations of tracks, in row-major order.
ghost use Rattle.std.specs.Prelude.{◌≡◌, ℕ, ◌+◌, ◌*◌, ◌^◌, ◌<◌, ◌≤◌, pos, ◌+ℤ◌, ◌-ℤ◌, ◌*ℤ◌, [], ◌∷◌, ◌++◌, length, map, drop, unsigned_abs, vec_len, vec_capacity};
ghost use Rattle.apl_base.specs.Array.{size_of};
ghost use Rattle.apl_base.specs.Number.{IsNumber};
ghost use Rattle.apl_base.specs.Selection.{upward};
ghost use Rattle.array_desc.specs.Desc.{IsDesc};
ghost use Rattle.array_store.specs.Stores.{IsStore};
ghost use Rattle.array_store.specs.Counting.{OnlyFetched};
ghost use Rattle.made_picks.specs.Picks.{cell_by, read_or, picked, lengths_on, stride_on, IsReadable, IsReached};
ghost use Rattle.made_picks.specs.Tracks.{places_on, FitAxes, CanPick, CanRead};

use crate::reads::{push_blanks, push_cell, read_number, read_run};
use crate::tracks::{Track, less_origin, number_on, picked_count};
use apl_base::Cell;
use array_desc::Desc;
use array_store::Store;
use drag_along::Leaf;

/// Appends the elements that tracks pick along the axes of a descriptor from `axis` on, which have room: those at the
/// numbers that lie behind `at`, and blanks where a track has none. It takes no memory.
pub(crate) fn pick(
    leaf: &Leaf,
    desc: &Desc,
    axis: usize,
    at: Cell,
    tracks: &[Track],
    blank: Cell,
    store: &mut Store,
    cells: &mut Vec<Cell>,
)
    requires lawful { IsDesc desc.now }
    requires reached { IsReached store.old leaf.now
        (drop axis desc.now.shape) (drop axis desc.now.strides) at }
    requires fits { FitAxes (drop axis desc.now.shape) tracks.now }
    requires some { 0 < size_of (drop axis desc.now.shape) }
    requires many { 0 < size_of (lengths_on (map places_on tracks.now)) }
    requires few { size_of (lengths_on (map places_on tracks.now)) ≤ 2 ^ 40 }
    requires room { vec_len cells.old + size_of (lengths_on (map places_on tracks.now))
        ≤ vec_capacity cells.old }
    ensures cells { cells.new.items ≡ cells.old.items
        ++ picked (cell_by store.old leaf.now) blank
        (drop axis desc.now.strides) (map places_on tracks.now) at }
    ensures capacity { vec_capacity cells.old ≤ vec_capacity cells.new }
    ensures counted { OnlyFetched store.old store.new
        (size_of (lengths_on (map places_on tracks.now))) }
    ensures store { IsStore store.new }
{
    // It tells the proof that the store is one.
    let _counts = store.counts();
    let Some((track, rest)) = tracks.split_first() else {
        push_cell(read_number(leaf, at, store), cells);
        return;
    };
    let stride = stride_of(desc, axis);
    if rest.is_empty() {
        pick_row(leaf, at, stride, track, blank, store, cells);
        return;
    }
    for j in 0..track.len() {
        match track.place(j) {
            Some(place) => {
                let next = number_on(at, stride, place);
                pick(leaf, desc, axis + 1, next, rest, blank, store, cells);
            }
            None => push_blanks(picked_count(rest), blank, cells),
        }
    }
}

// The stride of an axis.
fn stride_of(desc: &Desc, axis: usize) -> Cell
    requires { axis < length desc.now.strides }
    ensures { result ≡ stride_on desc.now axis }
{
    desc.strides.as_slice()[axis]
}

// Appends the elements that a track picks along an axis, which have room.
fn pick_row(
    leaf: &Leaf,
    at: Cell,
    stride: Cell,
    track: &Track,
    blank: Cell,
    store: &mut Store,
    cells: &mut Vec<Cell>,
)
    requires can { CanPick store.old leaf.now at stride track.now }
    requires room { vec_len cells.old + length (places_on track.now) ≤ vec_capacity cells.old }
    ensures cells { cells.new.items ≡ cells.old.items
        ++ map (read_or blank (λ z. cell_by store.old leaf.now (at +ℤ (stride *ℤ z))))
        (places_on track.now) }
    ensures capacity { vec_capacity cells.old ≤ vec_capacity cells.new }
    ensures counted { OnlyFetched store.old store.new (length (places_on track.now)) }
    ensures store { IsStore store.new }
{
    // It tells the proof that the store is one.
    let _counts = store.counts();
    match track {
        Track::Line {
            before,
            from,
            step,
            count,
            after,
        } => {
            push_blanks(*before, blank, cells);
            pick_line(leaf, at, stride, *from, *step, *count, store, cells);
            push_blanks(*after, blank, cells);
        }
        Track::Listed { values, origin } => {
            pick_listed(leaf, at, stride, values.as_slice(), *origin, store, cells);
        }
    }
}

// Appends the elements at places of an axis that lie a step apart, which have room.
fn pick_line(
    leaf: &Leaf,
    at: Cell,
    stride: Cell,
    from: Cell,
    step: Cell,
    count: u64,
    store: &mut Store,
    cells: &mut Vec<Cell>,
)
    requires at { IsNumber at }
    requires reached { (j : ℕ) → j < count
        → IsReadable store.old leaf.now (at +ℤ (stride *ℤ (from +ℤ (step *ℤ pos j)))) }
    requires room { vec_len cells.old + count ≤ vec_capacity cells.old }
    ensures cells { cells.new.items ≡ cells.old.items ++ map (λ j.
        cell_by store.old leaf.now (at +ℤ (stride *ℤ (from +ℤ (step *ℤ pos j))))) (upward 0 count) }
    ensures capacity { vec_capacity cells.old ≤ vec_capacity cells.new }
    ensures counted { OnlyFetched store.old store.new count }
    ensures store { IsStore store.new }
{
    // It tells the proof that the store is one.
    let _counts = store.counts();
    if count == 0 {
        return;
    }
    let first = number_on(at, stride, from);
    if count == 1 {
        push_cell(read_number(leaf, first, store), cells);
        return;
    }
    read_run(leaf, first, scaled(stride, step), count, store, cells);
}

// The step between the numbers at places that lie a step apart.
fn scaled(stride: Cell, step: Cell) -> Cell
    requires { unsigned_abs (stride *ℤ step) ≤ 2 * 10 ^ 36 }
    ensures { result ≡ stride *ℤ step }
{
    stride * step
}

// Appends the elements at places of an axis that are listed, which have room.
fn pick_listed(
    leaf: &Leaf,
    at: Cell,
    stride: Cell,
    values: &[Cell],
    origin: Cell,
    store: &mut Store,
    cells: &mut Vec<Cell>,
)
    requires can { CanRead store.old leaf.now at stride origin values.now }
    requires room { vec_len cells.old + length values.now ≤ vec_capacity cells.old }
    ensures cells { cells.new.items ≡ cells.old.items ++ map (λ v.
        cell_by store.old leaf.now (at +ℤ (stride *ℤ (v -ℤ origin)))) values.now }
    ensures capacity { vec_capacity cells.old ≤ vec_capacity cells.new }
    ensures counted { OnlyFetched store.old store.new (length values.now) }
    ensures store { IsStore store.new }
{
    // It tells the proof that the store is one.
    let _counts = store.counts();
    for value in values {
        push_cell(read_listed(leaf, at, stride, *value, origin, store), cells);
    }
}

// The element at a place that a number names.
fn read_listed(
    leaf: &Leaf,
    at: Cell,
    stride: Cell,
    value: Cell,
    origin: Cell,
    store: &mut Store,
) -> Cell
    requires can { CanRead store.old leaf.now at stride origin (value ∷ []) }
    ensures value { result
        ≡ cell_by store.old leaf.now (at +ℤ (stride *ℤ (value -ℤ origin))) }
    ensures counted { OnlyFetched store.old store.new 1 }
    ensures store { IsStore store.new }
{
    let number = number_on(at, stride, less_origin(value, origin));
    read_number(leaf, number, store)
}
