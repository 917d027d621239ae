//! Arguments of functions of whole arrays, in few words.

ghost use Rattle.std.specs.Prelude.{◌≡◌, ℕ, ◌<◌, [], length, slice_index, All, IfOk};
ghost use Rattle.apl_base.specs.declared.cells.Kind.{Kind};
ghost use Rattle.apl_base.specs.Number.{IsCell};
ghost use Rattle.array_store.specs.Stores.{StoreView};
ghost use Rattle.array_store.specs.Follows.{Follows, none};
ghost use Rattle.drag_along.specs.Nodes.{named_by_leaf};
ghost use Rattle.drag_along.specs.Lawful.{IsLawfulLeaf, LiesIn};

use apl_base::{Cell, ErrorKind, Kind, NoMemory, Shape};
use array_desc::Desc;
use array_store::Store;
use drag_along::Leaf;
use made_leaf::{MadeFault, make_leaf, room_for};
use std::alloc::Global;

/// What is read of cells that are stored.
#[derive(Clone, Copy, Debug, PartialEq, Eq)]
pub enum Read {
    /// All of them.
    Whole,
    /// All of them, backwards along the first axis.
    Reversed,
    /// All of a matrix, with its axes exchanged.
    Exchanged,
    /// The diagonal of a matrix.
    Diagonal,
    /// The second element, or row, along the first axis.
    Second,
}

/// An argument.
#[derive(Clone, Copy, Debug)]
pub enum Argument {
    /// Cells that are stored: their kind, the lengths, the cells in row-major order, and what is read of them.
    Stored(Kind, &'static [u64], &'static [i64], Read),
    /// So many numbers from this one up, not stored.
    Line(i64, u8),
    /// What is read of the numbers from 0 up in row-major order, of these lengths and not stored.
    Places(&'static [u64], Read),
    /// One number everywhere, of these lengths and not stored.
    Same(i64, &'static [u64]),
}

/// The argument as a leaf, which is held once where it is stored. Leaves that were lawful before stay so. LENGTH ERROR
/// comes where there are not as many cells as the shape has elements, LIMIT ERROR where the lengths make no shape.
pub fn placed(alloc: Global, argument: &Argument, store: &mut Store) -> Result<Leaf, MadeFault>
    ensures lawful { IfOk result (IsLawfulLeaf store.new) }
    ensures follows { IfOk result (λ leaf. Follows store.old store.new none (named_by_leaf leaf)) }
    ensures kept { (leaf : Leaf) → IsLawfulLeaf store.old leaf → IsLawfulLeaf store.new leaf }
{
    match *argument {
        Argument::Stored(kind, lengths, cells, read) => {
            let shape = shape_of(alloc, lengths)?;
            let whole = stored(kind, &shape, cells, store)?;
            Ok(selected(whole, read))
        }
        Argument::Line(from, n) => Ok(numbers(line(alloc, from, n))),
        Argument::Places(lengths, read) => {
            let mut desc = Desc::whole(&shape_of(alloc, lengths)?);
            narrow(&mut desc, read);
            Ok(numbers(desc))
        }
        Argument::Same(number, lengths) => {
            let mut desc = single(alloc, number);
            desc.extend(&shape_of(alloc, lengths)?);
            Ok(numbers(desc))
        }
    }
}

// The shape of these lengths.
fn shape_of(alloc: Global, lengths: &[u64]) -> Result<Shape, MadeFault> {
    match Shape::of(alloc, lengths) {
        Ok(shape) => Ok(shape),
        Err(_) => Err(MadeFault::Error {
            kind: ErrorKind::Limit,
        }),
    }
}

// The numbers of a descriptor, not stored.
fn numbers(desc: Desc) -> Leaf
    ensures names { (key : ℕ) → named_by_leaf result key ≡ 0 }
    ensures lawful { (store : StoreView) → IsLawfulLeaf store result }
{
    Leaf::Gen {
        desc,
        kind: Kind::Num,
    }
}

// Few numbers.
fn line(alloc: Global, from: i64, n: u8) -> Desc {
    Desc::line(alloc, Cell::from(from), 1, u64::from(n))
}

// A scalar.
fn single(alloc: Global, number: i64) -> Desc
    ensures { result.shape ≡ [] }
{
    Desc::one(alloc, Cell::from(number))
}

/// All cells of a new owner, in row-major order. Leaves that were lawful before stay so. There are as many cells as the
/// shape has elements, or it is a LENGTH ERROR. A character below 0 or above 127 is brought to the nearer of the two.
pub fn stored(
    kind: Kind,
    shape: &Shape,
    values: &[i64],
    store: &mut Store,
) -> Result<Leaf, MadeFault>
    ensures lawful { IfOk result (IsLawfulLeaf store.new) }
    ensures follows { IfOk result (λ leaf. Follows store.old store.new none (named_by_leaf leaf)) }
    ensures kept { (leaf : Leaf) → IsLawfulLeaf store.old leaf → IsLawfulLeaf store.new leaf }
{
    if values.len() as u64 != shape.size() {
        return Err(MadeFault::Error {
            kind: ErrorKind::Length,
        });
    }
    let cells = filled(room_for(shape.size(), store)?, kind, values)?;
    Ok(make_leaf(cells, shape, kind, store)?)
}

// A cell of the kind for each value.
fn filled(mut cells: Vec<Cell>, kind: Kind, values: &[i64]) -> Result<Vec<Cell>, NoMemory>
    requires { cells.items ≡ [] }
    ensures lawful { IfOk result (λ filled. All (IsCell kind) filled.items) }
    ensures count { IfOk result (λ filled. length filled.items ≡ length values.now) }
{
    for value in values {
        cells.push(cell_of(kind, *value))?;
    }
    Ok(cells)
}

// A number, or a character that is near it.
fn cell_of(kind: Kind, value: i64) -> Cell
    ensures { IsCell kind result }
{
    match kind {
        Kind::Num => Cell::from(value),
        Kind::Char => Cell::from(value.clamp(0, 127)),
    }
}

/// What is read so of a stored leaf; all of it where its shape does not have what is to be read.
pub fn selected(leaf: Leaf, read: Read) -> Leaf
    ensures names { (key : ℕ) → named_by_leaf result key ≡ named_by_leaf leaf key }
    ensures lawful { (store : StoreView) → IsLawfulLeaf store leaf → IsLawfulLeaf store result }
{
    match leaf {
        Leaf::Stored {
            owner,
            mut desc,
            kind,
        } => {
            narrow(&mut desc, read);
            Leaf::Stored { owner, desc, kind }
        }
        unstored => unstored,
    }
}

// Reads so of the places; all of them where the shape does not have what is to be read.
fn narrow(desc: &mut Desc, read: Read)
    ensures { (store : StoreView) (owner : ℕ) (kind : Kind)
        → LiesIn store owner desc.old kind → LiesIn store owner desc.new kind }
{
    let rank = desc.shape.rank();
    match read {
        Read::Reversed if rank > 0 => reverse(desc),
        Read::Exchanged if rank == 2 => exchange(desc),
        Read::Diagonal if rank == 2 => keep_diagonal(desc),
        Read::Second if rank > 0 && desc.shape.len(0) > 1 => keep_second(desc),
        _ => {}
    }
}

// Backwards along the first axis.
fn reverse(desc: &mut Desc)
    requires { 0 < length desc.old.shape }
    ensures { (store : StoreView) (owner : ℕ) (kind : Kind)
        → LiesIn store owner desc.old kind → LiesIn store owner desc.new kind }
{
    desc.reverse(0);
}

// The axes of a matrix exchanged.
fn exchange(desc: &mut Desc)
    requires { length desc.old.shape ≡ 2 }
    ensures { (store : StoreView) (owner : ℕ) (kind : Kind)
        → LiesIn store owner desc.old kind → LiesIn store owner desc.new kind }
{
    desc.transpose(&[1, 0]);
}

// The diagonal of a matrix.
fn keep_diagonal(desc: &mut Desc)
    requires { length desc.old.shape ≡ 2 }
    ensures { (store : StoreView) (owner : ℕ) (kind : Kind)
        → LiesIn store owner desc.old kind → LiesIn store owner desc.new kind }
{
    desc.transpose(&[0, 0]);
}

// The second place along the first axis.
fn keep_second(desc: &mut Desc)
    requires some { 0 < length desc.old.shape }
    requires second { 1 < slice_index desc.old.shape 0 }
    ensures { (store : StoreView) (owner : ℕ) (kind : Kind)
        → LiesIn store owner desc.old kind → LiesIn store owner desc.new kind }
{
    desc.at(0, 1);
}
