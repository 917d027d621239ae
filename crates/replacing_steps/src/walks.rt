//! Cells of an owner that are written at all combinations of tracks, in row-major order.

ghost use Rattle.std.specs.Prelude.{◌≡◌, ℕ, ◌+◌, ◌^◌, ◌<◌, ◌≤◌, pos, ◌+ℤ◌, ◌*ℤ◌, ◌≤ℤ◌, ◌<ℤ◌, length, map, drop, unsigned_abs, All};
ghost use Rattle.apl_base.specs.Array.{size_of};
ghost use Rattle.apl_base.specs.Number.{IsCell, IsNumber};
ghost use Rattle.array_desc.specs.Desc.{IsDesc};
ghost use Rattle.array_store.specs.Stores.{IsStore, holders_of, cells_of, kind_of, with_cell};
ghost use Rattle.made_picks.specs.Picks.{read_or, stride_on};
ghost use Rattle.made_picks.specs.Tracks.{places_on, FitAxes};
ghost use Rattle.replacing_steps.specs.Writes.{CanReach, HasValues, IsRow, NamesEach, WritesCells, places_by, places_in, value_by, written};

use apl_base::Cell;
use array_desc::Desc;
use array_store::{OwnerId, Store};
use made_picks::Track;

/// Writes values to the places that tracks name along the axes of a descriptor from `axis` on, which lie behind `at`: one
/// after the other in row-major order, the value of number `first` to the first of them. Answers the number behind that of
/// the last one. It takes no memory.
pub fn write_along(
    owner: OwnerId,
    desc: &Desc,
    axis: usize,
    at: Cell,
    tracks: &[Track],
    values: &[Cell],
    first: u64,
    store: &mut Store,
) -> u64
    requires alone { holders_of store.old owner ≡ 1 }
    requires lawful { IsDesc desc.now }
    requires reached { CanReach store.old owner desc.now axis at }
    requires fits { FitAxes (drop axis desc.now.shape) tracks.now }
    requires some { 0 < size_of (drop axis desc.now.shape) }
    requires named { All NamesEach tracks.now }
    requires values { HasValues values.now first (places_in tracks.now) }
    requires numbers { first + places_in tracks.now ≤ 2 ^ 40 }
    requires kind { All (IsCell (kind_of store.old owner)) values.now }
    ensures written { WritesCells store.old store.new owner (written (value_by values.now) first
        (places_by (drop axis desc.now.strides) tracks.now at) (cells_of store.old owner)) }
    ensures next { result ≡ first + places_in tracks.now }
    ensures store { IsStore store.new }
{
    // It tells the proof that the store is one.
    let _counts = store.counts();
    let Some((track, rest)) = tracks.split_first() else {
        write_number(owner, at, value_of(values, first), store);
        return first + 1;
    };
    let stride = stride_of(desc, axis);
    if rest.is_empty() {
        write_row(owner, at, stride, track, values, first, store);
        return first + track.len();
    }
    let mut number = first;
    for j in 0..track.len() {
        let Some(place) = track.place(j) else {
            unreachable!()
        };
        let behind = number_on(at, stride, place);
        number = write_along(owner, desc, axis + 1, behind, rest, values, number, store);
    }
    number
}

// Writes values to the places that a track names along an axis, the value of number `first` to the first of them.
fn write_row(
    owner: OwnerId,
    at: Cell,
    stride: Cell,
    track: &Track,
    values: &[Cell],
    first: u64,
    store: &mut Store,
)
    requires alone { holders_of store.old owner ≡ 1 }
    requires row { IsRow store.old owner at stride track.now }
    requires named { NamesEach track.now }
    requires values { HasValues values.now first (length (places_on track.now)) }
    requires numbers { first + length (places_on track.now) ≤ 2 ^ 40 }
    requires kind { All (IsCell (kind_of store.old owner)) values.now }
    ensures written { WritesCells store.old store.new owner (written (value_by values.now) first
        (map (read_or (pos 0) (λ z. at +ℤ (stride *ℤ z))) (places_on track.now))
        (cells_of store.old owner)) }
    ensures store { IsStore store.new }
{
    // It tells the proof that the store is one.
    let _counts = store.counts();
    for j in 0..track.len() {
        let Some(place) = track.place(j) else {
            unreachable!()
        };
        let number = number_on(at, stride, place);
        write_number(owner, number, value_of(values, first + j), store);
    }
}

// Writes a cell at a number that is a place of an owner.
fn write_number(owner: OwnerId, number: Cell, cell: Cell, store: &mut Store)
    requires alone { holders_of store.old owner ≡ 1 }
    requires low { pos 0 ≤ℤ number }
    requires high { number <ℤ pos (length (cells_of store.old owner)) }
    requires lawful { IsCell (kind_of store.old owner) cell }
    ensures written { store.new ≡ with_cell store.old owner (unsigned_abs number) cell }
    ensures store { IsStore store.new }
{
    // No owner has more cells than the limit, so each place fits.
    let _limit = store.limit();
    store.write(owner, number as u64, cell);
}

// The value of a number: a single one is that of all.
fn value_of(values: &[Cell], q: u64) -> Cell
    requires { HasValues values.now q 1 }
    ensures { result ≡ value_by values.now q }
{
    if values.len() == 1 {
        return values[0];
    }
    values[q as usize]
}

// The stride of an axis.
fn stride_of(desc: &Desc, axis: usize) -> Cell
    requires { axis < length desc.now.strides }
    ensures { result ≡ stride_on desc.now axis }
{
    desc.strides.as_slice()[axis]
}

// The number at a place that lies so many steps behind another one.
fn number_on(from: Cell, step: Cell, place: Cell) -> Cell
    requires from { IsNumber from }
    requires number { IsNumber (from +ℤ (step *ℤ place)) }
    ensures { result ≡ from +ℤ (step *ℤ place) }
{
    from + step * place
}
