//! `A⊤B`: the digits of numbers.

ghost use Rattle.std.specs.Prelude.{◌≡◌, ◌↔◌, ◌+◌, ◌*◌, ◌++◌, ◌≤◌, [], pos, int_lt, IfOk, IsOk, All, length, vec_len, vec_capacity};
ghost use Rattle.std.specs.List.{list_any};
ghost use Rattle.std.specs.Ordering.{int_eq};
ghost use Rattle.apl_base.specs.Array.{IsShape, size_of};
ghost use Rattle.apl_base.specs.Number.{IsNumber};
ghost use Rattle.array_store.specs.Stores.{IsStore, HasRoom};
ghost use Rattle.array_store.specs.Counting.{OnlyFetched};
ghost use Rattle.drag_along.specs.Nodes.{leaf_shape};
ghost use Rattle.drag_along.specs.Lawful.{IsLawfulLeaf};
ghost use Rattle.leaf_names.specs.Variables.{array_of};
ghost use Rattle.made_leaf.specs.Made.{Fetched, IsMadeBy};
ghost use Rattle.value_fns.specs.Digits.{digit_table, encoded, is_undefined, shaped};
ghost use Rattle.apl_model.specs.Made as language;

use crate::decodes::cell_at;
use crate::digits::fill_table;
use crate::kinds::is_text;
use apl_base::{Cell, ErrorKind, Kind, Shape, TooLarge};
use array_store::Store;
use drag_along::Leaf;
use made_leaf::{MadeFault, make_leaf, read_cells, room_for};

/// `A⊤B`: the digits of each element of B in the bases A, with the shape of A and then of B. From the last base to the
/// first the digit is what is left by the base, and the next base gets the quotient, or 0 after the base 0. RANK ERROR
/// comes where an argument has more than one axis, then LIMIT ERROR where the result's shape is too large, then DOMAIN
/// ERROR where an argument is text, or where B has a negative element and A the base 0. All this is found before room is
/// asked for. Each element is fetched once at most.
pub fn encode(a: &Leaf, b: &Leaf, store: &mut Store) -> Result<Leaf, MadeFault>
    requires left { IsLawfulLeaf store.old a.now }
    requires right { IsLawfulLeaf store.old b.now }
    ensures made { IsMadeBy
        (Fetched store.old (size_of (leaf_shape a.now) + size_of (leaf_shape b.now)))
        store.old store.new
        (language.encode (array_of store.old a.now) (array_of store.old b.now)) result }
    ensures store { IsStore store.new }
{
    // It tells the proof that the store is one.
    let _counts = store.counts();
    if a.desc().shape.rank() > 1 || b.desc().shape.rank() > 1 {
        return Err(MadeFault::Error {
            kind: ErrorKind::Rank,
        });
    }
    let Ok(shape) = joined_shape(&a.desc().shape, &b.desc().shape) else {
        return Err(MadeFault::Error {
            kind: ErrorKind::Limit,
        });
    };
    encode_shaped(a, b, &shape, store)
}

// The leaf of the digits in a shape, where no argument is text.
fn encode_shaped(a: &Leaf, b: &Leaf, shape: &Shape, store: &mut Store) -> Result<Leaf, MadeFault>
    requires left { IsLawfulLeaf store.old a.now }
    requires right { IsLawfulLeaf store.old b.now }
    requires shape { shape.now ≡ leaf_shape a.now ++ leaf_shape b.now }
    ensures made { IsMadeBy
        (Fetched store.old (size_of (leaf_shape a.now) + size_of (leaf_shape b.now)))
        store.old store.new
        (shaped (array_of store.old a.now) (array_of store.old b.now)) result }
    ensures store { IsStore store.new }
{
    // It tells the proof that the store is one.
    let _counts = store.counts();
    if is_text(a.kind(), a.desc().size()) || is_text(b.kind(), b.desc().size()) {
        return Err(MadeFault::Error {
            kind: ErrorKind::Domain,
        });
    }
    encode_leaves(a, b, shape, store)
}

// The shape of a first array and then of a second one, each with one axis at most. It takes no memory.
fn joined_shape(first: &Shape, second: &Shape) -> Result<Shape, TooLarge>
    requires first { length first.now ≤ 1 }
    requires second { length second.now ≤ 1 }
    ensures ok { IfOk result (λ shape. shape ≡ first.now ++ second.now) }
    ensures exact { IsOk result ↔ IsShape (first.now ++ second.now) }
{
    if first.rank() == 0 {
        return Ok(second.copy());
    }
    if second.rank() == 0 {
        return Ok(first.copy());
    }
    Shape::of(first.allocator(), &[first.len(0), second.len(0)])
}

// The leaf of the digits. Room is asked for first: where there is some, the elements are read into vectors; where there
// is none, they are looked at one by one, since a DOMAIN ERROR comes before that.
fn encode_leaves(a: &Leaf, b: &Leaf, shape: &Shape, store: &mut Store) -> Result<Leaf, MadeFault>
    requires left { IsLawfulLeaf store.old a.now }
    requires right { IsLawfulLeaf store.old b.now }
    requires bases { All IsNumber (array_of store.old a.now).cells }
    requires values { All IsNumber (array_of store.old b.now).cells }
    requires shape { shape.now ≡ leaf_shape a.now ++ leaf_shape b.now }
    ensures made { IsMadeBy
        (Fetched store.old (size_of (leaf_shape a.now) + size_of (leaf_shape b.now)))
        store.old store.new
        (encoded (array_of store.old a.now) (array_of store.old b.now)) result }
    ensures store { IsStore store.new }
{
    // It tells the proof that the store is one.
    let _counts = store.counts();
    match room_for(shape.size(), store) {
        Ok(cells) => encode_into(a, b, shape, cells, store),
        Err(MadeFault::NoMemory) => Err(MadeFault::NoMemory),
        Err(fault) => {
            if has_zero(a, store) && has_negative(b, store) {
                return Err(MadeFault::Error {
                    kind: ErrorKind::Domain,
                });
            }
            Err(fault)
        }
    }
}

// The leaf of the digits, in an empty vector that has room for them.
fn encode_into(
    a: &Leaf,
    b: &Leaf,
    shape: &Shape,
    cells: Vec<Cell>,
    store: &mut Store,
) -> Result<Leaf, MadeFault>
    requires left { IsLawfulLeaf store.old a.now }
    requires right { IsLawfulLeaf store.old b.now }
    requires bases { All IsNumber (array_of store.old a.now).cells }
    requires values { All IsNumber (array_of store.old b.now).cells }
    requires shape { shape.now ≡ leaf_shape a.now ++ leaf_shape b.now }
    requires empty { cells.items ≡ [] }
    requires capacity { size_of shape.now ≤ vec_capacity cells }
    requires room { HasRoom store.old (size_of shape.now) }
    ensures made { IsMadeBy
        (Fetched store.old (size_of (leaf_shape a.now) + size_of (leaf_shape b.now)))
        store.old store.new
        (encoded (array_of store.old a.now) (array_of store.old b.now)) result }
    ensures store { IsStore store.new }
{
    // It tells the proof that the store is one.
    let _counts = store.counts();
    let bases = read_cells(a, store)?;
    let values = read_cells(b, store)?;
    if are_undefined(bases.as_slice(), values.as_slice()) {
        return Err(MadeFault::Error {
            kind: ErrorKind::Domain,
        });
    }
    let cells = table_of(bases, values, cells);
    Ok(make_leaf(cells, shape, Kind::Num, store)?)
}

// Whether a number among these has no digit in a base among those.
fn are_undefined(bases: &[Cell], values: &[Cell]) -> bool
    ensures { result ≡ is_undefined bases.now values.now }
{
    any_zero(bases) && any_negative(values)
}

// Whether a number is 0.
fn any_zero(cells: &[Cell]) -> bool
    ensures { result ≡ list_any (int_eq (pos 0)) cells.now }
{
    for cell in cells {
        if 0 == *cell {
            return true;
        }
    }
    false
}

// Whether a number is negative.
fn any_negative(cells: &[Cell]) -> bool
    ensures { result ≡ list_any (λ z. int_lt z (pos 0)) cells.now }
{
    for cell in cells {
        if *cell < 0 {
            return true;
        }
    }
    false
}

// The table of the digits of numbers in bases, in an empty vector that has room for it.
fn table_of(bases: Vec<Cell>, mut values: Vec<Cell>, mut cells: Vec<Cell>) -> Vec<Cell>
    requires bases { All IsNumber bases.items }
    requires values { All IsNumber values.items }
    requires empty { cells.items ≡ [] }
    requires capacity { length bases.items * length values.items ≤ vec_capacity cells }
    ensures { result.items ≡ digit_table bases.items values.items }
{
    let Ok(()) = cells.resize(bases.len() * values.len(), 0) else {
        unreachable!()
    };
    fill_table(
        bases.as_slice(),
        values.as_mut_slice(),
        cells.as_mut_slice(),
    );
    cells
}

// Whether an element is 0. Each is fetched once at most.
fn has_zero(leaf: &Leaf, store: &mut Store) -> bool
    requires { IsLawfulLeaf store.old leaf.now }
    ensures value { result ≡ list_any (int_eq (pos 0)) (array_of store.old leaf.now).cells }
    ensures counted { OnlyFetched store.old store.new (size_of (leaf_shape leaf.now)) }
    ensures store { IsStore store.new }
{
    // It tells the proof that the store is one.
    let _counts = store.counts();
    for place in 0..leaf.desc().size() {
        if cell_at(leaf, place, store) == 0 {
            return true;
        }
    }
    false
}

// Whether an element is negative. Each is fetched once at most.
fn has_negative(leaf: &Leaf, store: &mut Store) -> bool
    requires { IsLawfulLeaf store.old leaf.now }
    ensures value { result ≡ list_any (λ z. int_lt z (pos 0)) (array_of store.old leaf.now).cells }
    ensures counted { OnlyFetched store.old store.new (size_of (leaf_shape leaf.now)) }
    ensures store { IsStore store.new }
{
    // It tells the proof that the store is one.
    let _counts = store.counts();
    for place in 0..leaf.desc().size() {
        if cell_at(leaf, place, store) < 0 {
            return true;
        }
    }
    false
}
