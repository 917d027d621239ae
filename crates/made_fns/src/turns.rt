//! Rotation of an axis.
ghost use Rattle.std.specs.Prelude.{◌≡◌, ◌⊎◌, ◌+◌, ◌-◌, ◌*◌, ◌/◌, ◌%◌, ◌^◌, ◌<◌, ◌≤◌, ℕ, ◌==◌, ◌++◌, pos, ◌+ℤ◌, unsigned_abs, Ok, Err, [], map, length, take, drop, remove, slice_index, slice_index_or, if◌then◌else◌, IsTrue, ◌↔◌, All, min, IfOk, OnOk, IfErr, vec_capacity};
ghost use Rattle.std.specs.Int.{int_rem_euclid};
ghost use Rattle.apl_base.specs.Array.{size_of, IsShape};
ghost use Rattle.apl_base.specs.Number.{IsNumber};
ghost use Rattle.apl_base.specs.Selection.{upward};
ghost use Rattle.array_desc.specs.Desc.{IsDesc};
ghost use Rattle.array_store.specs.Stores.{StoreView, IsStore};
ghost use Rattle.drag_along.specs.Nodes.{leaf_desc, leaf_shape};
ghost use Rattle.drag_along.specs.Lawful.{IsLawfulLeaf};
ghost use Rattle.apl_model.specs.declared.functions.Axis.{Axis};
ghost use Rattle.apl_model.specs.Made.{rotated};
ghost use Rattle.leaf_names.specs.Variables.{array_of};
ghost use Rattle.made_leaf.specs.Made.{IsMadeBy, Fetched};
ghost use Rattle.made_fns.specs.Answers.{elements_in, rotated_array, GoesAlong};
ghost use Rattle.made_fns.specs.Lines.{TurnsFit, turned_cell, run_of};

use crate::axes::axis_of;
use crate::leaves::{elements, is_text, lengths, rank, shape};
use apl_base::{Cell, ErrorKind};
use apl_model::Axis;
use array_store::Store;
use drag_along::Leaf;
use made_leaf::{MadeFault, make_leaf, read_cells, room_for};

/// `A⌽B`: element i of the axis is element i + a modulo the length; a scalar stays.
pub fn rotate(a: &Leaf, b: &Leaf, axis: Axis, store: &mut Store) -> Result<Leaf, MadeFault>
    requires a { IsLawfulLeaf store.old a.now }
    requires b { IsLawfulLeaf store.old b.now }
    ensures made { IsMadeBy
        (Fetched store.old (elements_in a.now + elements_in b.now)) store.old store.new
        (rotated (pos 1) axis (array_of store.old a.now) (array_of store.old b.now)) result }
    ensures store { IsStore store.new }
{
    // It tells the proof that the store is one.
    let _counts = store.counts();
    let along = turned_axis(a, b, axis)?;
    let size = elements(b);
    let mut cells = room_for(size, store)?;
    let turns = read_cells(a, store)?;
    let items = read_cells(b, store)?;
    turn(
        turns.as_slice(),
        items.as_slice(),
        lengths(b),
        along,
        &mut cells,
    );
    Ok(make_leaf(cells, shape(b), b.kind(), store)?)
}

// The axis that is turned, or the error.
fn turned_axis(a: &Leaf, b: &Leaf, axis: Axis) -> Result<usize, ErrorKind>
    ensures fits { IfOk result (TurnsFit (leaf_shape a.now) (leaf_shape b.now)) }
    ensures within { IfOk result (λ k. (k < length (leaf_shape b.now))
        ⊎ ((length (leaf_shape b.now) ≡ 0) × (k ≡ 0))) }
    ensures lawful { IsDesc (leaf_desc b.now) }
    ensures array { IfOk result (λ k. (store : StoreView)
        → rotated (pos 1) axis (array_of store a.now) (array_of store b.now)
        ≡ Ok (rotated_array k (array_of store a.now) (array_of store b.now))) }
    ensures refused { IfErr result (λ kind. (store : StoreView)
        → rotated (pos 1) axis (array_of store a.now) (array_of store b.now) ≡ Err kind) }
{
    let along = axis_of(axis, rank(b))?;
    fit(a, b, along)?;
    if is_text(a) {
        return Err(ErrorKind::Domain);
    }
    Ok(along)
}

// Whether A has one number, or one for each line of B along the axis; else the error.
fn fit(a: &Leaf, b: &Leaf, along: usize) -> Result<(), ErrorKind>
    requires { (along < length (leaf_shape b.now))
        ⊎ ((length (leaf_shape b.now) ≡ 0) × (along ≡ 0)) }
    ensures ranks { OnOk result ((elements_in a.now ≡ 1)
        ⊎ (length (leaf_shape a.now) + 1 ≡ length (leaf_shape b.now))) }
    ensures fits { OnOk result (TurnsFit (leaf_shape a.now) (leaf_shape b.now) along) }
    ensures refused { IfErr result (λ kind. (axis : Axis) (store : StoreView)
        → GoesAlong axis (length (leaf_shape b.now)) along
        → rotated (pos 1) axis (array_of store a.now) (array_of store b.now) ≡ Err kind) }
{
    if elements(a) == 1 {
        return Ok(());
    }
    if rank(a) + 1 != rank(b) {
        return Err(ErrorKind::Rank);
    }
    if !are_without(a.desc().shape.lengths(), b.desc().shape.lengths(), along) {
        return Err(ErrorKind::Length);
    }
    Ok(())
}

// Whether the first lengths are the second ones without those of one axis.
fn are_without(some: &[u64], all: &[u64], axis: usize) -> bool
    requires axis { axis < length all.now }
    requires count { length some.now + 1 ≡ length all.now }
    ensures { IsTrue result ↔ (some.now ≡ remove all.now axis) }
{
    some[..axis] == all[..axis] && some[axis..] == all[axis + 1..]
}

// Puts the turned elements into an empty vector with room for them.
fn turn(turns: &[Cell], items: &[Cell], lengths: &[u64], along: usize, cells: &mut Vec<Cell>)
    requires within { (along < length lengths.now) ⊎ ((length lengths.now ≡ 0) × (along ≡ 0)) }
    requires items { length items.now ≡ size_of lengths.now }
    requires few { size_of lengths.now ≤ 2 ^ 40 }
    requires turns { (length turns.now ≡ 1)
        ⊎ (length turns.now ≡ size_of (remove lengths.now along)) }
    requires numbers { All IsNumber turns.now }
    requires empty { cells.old.items ≡ [] }
    requires room { size_of lengths.now ≤ vec_capacity cells.old }
    ensures still { length lengths.now ≡ 0 → cells.new.items ≡ items.now }
    ensures turned { 0 < length lengths.now → cells.new.items
        ≡ map (turned_cell lengths.now along turns.now items.now) (upward 0 (size_of lengths.now)) }
{
    if lengths.is_empty() || items.is_empty() {
        append(items, cells);
        return;
    }
    if turns.len() == 1 || size_behind(lengths, along) == 1 {
        turn_blocks(turns, items, lengths, along, cells);
    } else {
        turn_places(turns, items, lengths, along, cells);
    }
}

// The same where there is an axis and an element, and the lines of a block, from one number on the axis before it to the
// next, are turned alike: each block is turned as a whole.
fn turn_blocks(turns: &[Cell], items: &[Cell], lengths: &[u64], along: usize, cells: &mut Vec<Cell>)
    requires within { along < length lengths.now }
    requires items { length items.now ≡ size_of lengths.now }
    requires some { 0 < size_of lengths.now }
    requires few { size_of lengths.now ≤ 2 ^ 40 }
    requires turns { (length turns.now ≡ 1)
        ⊎ (length turns.now ≡ size_of (remove lengths.now along)) }
    requires alike { (length turns.now ≡ 1) ⊎ (run_of lengths.now along ≡ 1) }
    requires numbers { All IsNumber turns.now }
    requires empty { cells.old.items ≡ [] }
    requires room { size_of lengths.now ≤ vec_capacity cells.old }
    ensures { cells.new.items ≡ map (turned_cell lengths.now along turns.now items.now)
        (upward 0 (size_of lengths.now)) }
{
    let length = lengths[along] as usize;
    let run = size_behind(lengths, along);
    let size = length * run;
    for block in 0..items.len() / size {
        let start = block * size;
        let number = turned_number(0, turn_of(turns, length, run, start), length);
        append_turned(items, start, start + number * run, start + size, cells);
    }
}

// Appends the cells from `middle` up to `end` to a vector that has room for them, and then those from `start` up to
// `middle`.
fn append_turned(items: &[Cell], start: usize, middle: usize, end: usize, cells: &mut Vec<Cell>)
    requires first { start ≤ middle }
    requires second { middle ≤ end }
    requires within { end ≤ length items.now }
    requires few { length items.now ≤ 2 ^ 40 }
    requires room { length cells.old.items + (end - start) ≤ vec_capacity cells.old }
    ensures items { cells.new.items ≡ cells.old.items
        ++ (take (end - middle) (drop middle items.now)
        ++ take (middle - start) (drop start items.now)) }
    ensures capacity { vec_capacity cells.old ≤ vec_capacity cells.new }
{
    append(&items[middle..end], cells);
    append(&items[start..middle], cells);
}

// Appends cells to a vector that has room for them.
fn append(more: &[Cell], cells: &mut Vec<Cell>)
    requires { length cells.old.items + length more.now ≤ vec_capacity cells.old }
    ensures items { cells.new.items ≡ cells.old.items ++ more.now }
    ensures capacity { vec_capacity cells.old ≤ vec_capacity cells.new }
{
    let Ok(()) = cells.extend_from_slice(more) else {
        unreachable!()
    };
}

// The same where there is an axis and an element, place by place.
fn turn_places(turns: &[Cell], items: &[Cell], lengths: &[u64], along: usize, cells: &mut Vec<Cell>)
    requires within { along < length lengths.now }
    requires items { length items.now ≡ size_of lengths.now }
    requires some { 0 < size_of lengths.now }
    requires few { size_of lengths.now ≤ 2 ^ 40 }
    requires turns { (length turns.now ≡ 1)
        ⊎ (length turns.now ≡ size_of (remove lengths.now along)) }
    requires numbers { All IsNumber turns.now }
    requires empty { cells.old.items ≡ [] }
    requires room { size_of lengths.now ≤ vec_capacity cells.old }
    ensures { cells.new.items ≡ map (turned_cell lengths.now along turns.now items.now)
        (upward 0 (size_of lengths.now)) }
{
    let length = lengths[along] as usize;
    let run = size_behind(lengths, along);
    for place in 0..items.len() {
        let number = place / run % length;
        let from = turned_number(number, turn_of(turns, length, run, place), length);
        let cell = item_at(items, place - number * run + from * run);
        let Ok(()) = cells.push(cell) else {
            unreachable!()
        };
    }
}

// The element at a place.
fn item_at(items: &[Cell], place: usize) -> Cell
    requires { place < length items.now }
    ensures { result ≡ slice_index_or items.now place (pos 0) }
{
    items[place]
}

// How far the line through a place is turned.
fn turn_of(turns: &[Cell], axis: usize, run: usize, place: usize) -> Cell
    requires axis { 0 < axis }
    requires run { 0 < run }
    requires few { axis * run ≤ 2 ^ 40 }
    requires line { (length turns.now ≡ 1)
        ⊎ (place / (axis * run) * run + place % run < length turns.now) }
    requires numbers { All IsNumber turns.now }
    ensures turn { result ≡ slice_index_or turns.now (if length turns.now == 1 then 0
        else place / (axis * run) * run + place % run) (pos 0) }
    ensures number { IsNumber result }
{
    if turns.len() == 1 {
        return turns[0];
    }
    turns[place / (axis * run) * run + place % run]
}

// The number on an axis of this length that is so far on, round its end.
fn turned_number(number: usize, by: Cell, axis: usize) -> usize
    requires number { number < axis }
    requires by { IsNumber by }
    requires axis { axis ≤ 2 ^ 40 }
    ensures value { result ≡ unsigned_abs (int_rem_euclid (pos number +ℤ by) (pos axis)) }
    ensures below { result < axis }
{
    (number as Cell + by).rem_euclid(axis as Cell) as usize
}

/// How many elements lie behind an axis.
pub fn size_behind(lengths: &[u64], axis: usize) -> usize
    requires axis { axis < length lengths.now }
    requires some { 0 < size_of lengths.now }
    requires few { size_of lengths.now ≤ 2 ^ 40 }
    ensures { result ≡ run_of lengths.now axis }
{
    size_within(&lengths[axis + 1..]) as usize
}

/// The product of the lengths, or one more than the limit where it is above the limit.
pub fn size_within(lengths: &[u64]) -> u64
    ensures { result ≡ min (size_of lengths.now) (2 ^ 40 + 1) }
{
    let mut size: u64 = 1;
    for n in lengths {
        size = size.saturating_mul(*n).min((1 << 40) + 1);
    }
    size
}
