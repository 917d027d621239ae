//! `A⊥B`: numbers from their digits.

ghost use Rattle.std.specs.Prelude.{◌≡◌, ℕ, ◌+◌, ◌<◌, ◌*ℤ◌, ◌+ℤ◌, pos, [], slice_index_or, All, IfSome, Some, None, Ok};
ghost use Rattle.std.specs.Option.{option_and_then};
ghost use Rattle.apl_base.specs.Array.{size_of};
ghost use Rattle.apl_base.specs.Number.{IsNumber};
ghost use Rattle.apl_base.specs.Scalar.{in_range};
ghost use Rattle.array_store.specs.Stores.{IsStore};
ghost use Rattle.array_store.specs.Counting.{OnlyFetched};
ghost use Rattle.drag_along.specs.Nodes.{leaf_shape};
ghost use Rattle.drag_along.specs.Lawful.{IsLawfulLeaf};
ghost use Rattle.apl_model.specs.Whole.{scalar};
ghost use Rattle.apl_base.specs.declared.cells.Kind.TheVariants.{Num};
ghost use Rattle.apl_model.specs.Made.{matched};
ghost use Rattle.leaf_names.specs.Variables.{array_of};
ghost use Rattle.made_leaf.specs.Made.{Fetched, IsMadeBy};
ghost use Rattle.value_fns.specs.Decoded.{AreOfOneLength, decoded_of, only_of, spent, once_more};
ghost use Rattle.apl_model.specs.Made as language;

use crate::kinds::is_text;
use apl_base::{Cell, ErrorKind, Kind, M, Shape};
use array_store::Store;
use drag_along::Leaf;
use made_leaf::{MadeFault, first_cell, make_leaf, read_block, room_for};
use std::alloc::Global;

/// `A⊥B`: the number whose digits in the bases A are B. It begins at 0, and for each place it is multiplied by the base
/// and the digit is added; a single argument extends to the other's size. RANK ERROR comes where an argument has more
/// than one axis, then LENGTH ERROR where neither is single and their sizes differ, then DOMAIN ERROR where an argument
/// is text, or where a product or a sum on the way is no number. All this is found before room is asked for. Each element
/// is fetched once at most.
pub fn decode(a: &Leaf, b: &Leaf, store: &mut Store) -> Result<Leaf, MadeFault>
    requires left { IsLawfulLeaf store.old a.now }
    requires right { IsLawfulLeaf store.old b.now }
    ensures made { IsMadeBy
        (Fetched store.old (size_of (leaf_shape a.now) + size_of (leaf_shape b.now)))
        store.old store.new
        (language.decode (array_of store.old a.now) (array_of store.old b.now)) result }
    ensures store { IsStore store.new }
{
    // It tells the proof that the store is one.
    let _counts = store.counts();
    if a.desc().shape.rank() > 1 || b.desc().shape.rank() > 1 {
        return Err(MadeFault::Error {
            kind: ErrorKind::Rank,
        });
    }
    let bases = a.desc().size();
    let digits = b.desc().size();
    if bases != 1 && digits != 1 && bases != digits {
        return Err(MadeFault::Error {
            kind: ErrorKind::Length,
        });
    }
    if is_text(a.kind(), bases) || is_text(b.kind(), digits) {
        return Err(MadeFault::Error {
            kind: ErrorKind::Domain,
        });
    }
    let Some(number) = decode_leaves(a, b, store) else {
        return Err(MadeFault::Error {
            kind: ErrorKind::Domain,
        });
    };
    number_leaf(number, a.desc().shape.allocator(), store)
}

// The leaf of one number, an array without axes.
fn number_leaf(number: Cell, alloc: Global, store: &mut Store) -> Result<Leaf, MadeFault>
    requires { IsNumber number }
    ensures made { IsMadeBy (λ s. s ≡ store.old) store.old store.new
        (Ok (scalar Num number)) result }
    ensures store { IsStore store.new }
{
    // It tells the proof that the store is one.
    let _counts = store.counts();
    let mut cells = room_for(1, store)?;
    let Ok(()) = cells.push(number) else {
        unreachable!()
    };
    Ok(make_leaf(cells, &scalar_shape(alloc), Kind::Num, store)?)
}

// The shape without axes. It takes no memory.
fn scalar_shape(alloc: Global) -> Shape
    ensures { result ≡ [] }
{
    match Shape::of(alloc, &[]) {
        Ok(shape) => shape,
        Err(_) => unreachable!(),
    }
}

// The number whose digits in the bases are these, where there is one. Each element is fetched once at most. It takes
// no memory, so that it stands before the room.
fn decode_leaves(a: &Leaf, b: &Leaf, store: &mut Store) -> Option<Cell>
    requires left { IsLawfulLeaf store.old a.now }
    requires right { IsLawfulLeaf store.old b.now }
    requires digits { All IsNumber (array_of store.old b.now).cells }
    requires lengths { AreOfOneLength (array_of store.old a.now) (array_of store.old b.now) }
    ensures number { result ≡ decoded_of (array_of store.old a.now) (array_of store.old b.now) }
    ensures within { IfSome result IsNumber }
    ensures counted { OnlyFetched store.old store.new
        (size_of (leaf_shape a.now) + size_of (leaf_shape b.now)) }
    ensures store { IsStore store.new }
{
    // It tells the proof that the store is one.
    let _counts = store.counts();
    let bases = a.desc().size();
    let places = if bases == 1 { b.desc().size() } else { bases };
    let only_base = only_cell(a, store);
    let only_digit = only_cell(b, store);
    let mut number = 0;
    for place in 0..places {
        let base = matched_cell(a, only_base, place, store);
        let digit = matched_cell(b, only_digit, place, store);
        number = next_number(number, base, digit)?;
    }
    Some(number)
}

// The cell of a leaf that has one alone. It fetches that cell.
fn only_cell(leaf: &Leaf, store: &mut Store) -> Option<Cell>
    requires { IsLawfulLeaf store.old leaf.now }
    ensures cell { result ≡ only_of (array_of store.old leaf.now) }
    ensures counted { OnlyFetched store.old store.new (spent (array_of store.old leaf.now) 0) }
    ensures store { IsStore store.new }
{
    // It tells the proof that the store is one.
    let _counts = store.counts();
    if leaf.desc().size() == 1 {
        Some(first_cell(leaf, store))
    } else {
        None
    }
}

// The cell of a leaf at a place, counted from 0, or the only one that it has, which is not fetched again.
fn matched_cell(leaf: &Leaf, only: Option<Cell>, place: u64, store: &mut Store) -> Cell
    requires lawful { IsLawfulLeaf store.old leaf.now }
    requires only { only ≡ only_of (array_of store.old leaf.now) }
    requires place { only ≡ None → place < size_of (leaf_shape leaf.now) }
    ensures cell { (n : ℕ) → place < n
        → result ≡ slice_index_or (matched (array_of store.old leaf.now) n) place (pos 0) }
    ensures counted { OnlyFetched store.old store.new (once_more (array_of store.old leaf.now)) }
    ensures store { IsStore store.new }
{
    // It tells the proof that the store is one.
    let _counts = store.counts();
    match only {
        Some(cell) => cell,
        None => cell_at(leaf, place, store),
    }
}

/// The cell of a leaf at a place of its row-major order, counted from 0. It fetches that cell.
pub(crate) fn cell_at(leaf: &Leaf, place: u64, store: &mut Store) -> Cell
    requires lawful { IsLawfulLeaf store.old leaf.now }
    requires place { place < size_of (leaf_shape leaf.now) }
    ensures cell { result ≡ slice_index_or (array_of store.old leaf.now).cells place (pos 0) }
    ensures counted { OnlyFetched store.old store.new 1 }
    ensures store { IsStore store.new }
{
    // It tells the proof that the counts are numbers of a machine.
    let _counts = store.counts();
    let mut cell = [0];
    read_block(leaf, place, store, &mut cell);
    cell[0]
}

// The number with one digit more, where the product and the sum are numbers.
fn next_number(number: Cell, base: Cell, digit: Cell) -> Option<Cell>
    requires { IsNumber digit }
    ensures value { result
        ≡ option_and_then (λ m. in_range (m +ℤ digit)) (in_range (number *ℤ base)) }
    ensures number { IfSome result IsNumber }
{
    let product = in_language(number.checked_mul(base)?)?;
    in_language(product + digit)
}

// The cell, where it is a number of the language.
fn in_language(cell: Cell) -> Option<Cell>
    ensures value { result ≡ in_range cell }
    ensures number { IfSome result IsNumber }
{
    if -M <= cell && cell <= M {
        Some(cell)
    } else {
        None
    }
}
