//! Calls by name, and what they answer.

ghost use Rattle.std.specs.Prelude.{IfSome, IfOk};
ghost use Rattle.array_store.specs.Stores.{StoreView};
ghost use Rattle.apl_model_laws.specs.Lawful.{IsOrigin};
ghost use Rattle.drag_along.specs.Lawful.{IsLawfulLeaf};

use apl_base::{Cell, Kind};
use apl_model::Axis;
use array_desc::Desc;
use array_store::Store;
use drag_along::Leaf;
use made_fns::{catenate, compress, expand, iota, ravel, reshape, rotate, shape_of};
use made_leaf::MadeFault;
use made_picks::{gather, overtake};
use std::alloc::Global;
use value_fns::{decode, encode, grade, index_of, member};

/// A call. A function of one argument takes the right one.
#[derive(Clone, Copy, Debug)]
pub enum Call {
    Iota,
    ShapeOf,
    Ravel,
    GradeUp,
    GradeDown,
    Reshape,
    Catenate,
    Overtake,
    IndexOf,
    Member,
    Encode,
    Decode,
    Rotate(Axis),
    Compress(Axis),
    Expand(Axis),
    Gather(Places),
}

/// Where the left argument stands among the positions of a subscript of the right one.
#[derive(Clone, Copy, Debug)]
pub enum Places {
    /// `B[A]`.
    Only,
    /// `B[A;]`.
    First,
    /// `B[;A]`.
    Last,
    /// `B[A;A]`.
    Both,
    /// `B[A;9]`.
    AndNine,
}

/// What the call answers.
pub fn called(
    alloc: Global,
    call: Call,
    origin: Cell,
    a: &Leaf,
    b: &Leaf,
    store: &mut Store,
) -> Result<Leaf, MadeFault>
    requires a { IsLawfulLeaf store.old a.now }
    requires b { IsLawfulLeaf store.old b.now }
    requires origin { IsOrigin origin }
    ensures { IfOk result (IsLawfulLeaf store.new) }
{
    match call {
        Call::Iota => counted(b, origin, store),
        Call::ShapeOf => shape_of(b, store),
        Call::Ravel => ravel(b, store),
        Call::GradeUp => grade(b, false, origin, store),
        Call::GradeDown => grade(b, true, origin, store),
        Call::Reshape => reshape(a, b, store),
        Call::Catenate => catenate(a, b, store),
        Call::Overtake => overtake(a, b, store),
        Call::IndexOf => index_of(a, b, origin, store),
        Call::Member => member(a, b, store),
        Call::Encode => encode(a, b, store),
        Call::Decode => decode(a, b, store),
        Call::Rotate(axis) => rotate(a, b, axis, store),
        Call::Compress(axis) => compress(a, b, axis, store),
        Call::Expand(axis) => expand(a, b, axis, store),
        Call::Gather(places) => gathered(alloc, places, origin, a, b, store),
    }
}

// The numbers from the origin up.
fn counted(b: &Leaf, origin: Cell, store: &mut Store) -> Result<Leaf, MadeFault>
    requires b { IsLawfulLeaf store.old b.now }
    requires origin { IsOrigin origin }
    ensures { IfOk result (IsLawfulLeaf store.new) }
{
    match iota(b, origin, store) {
        Ok(leaf) => Ok(leaf),
        Err(kind) => Err(MadeFault::Error { kind }),
    }
}

// A subscript.
fn gathered(
    alloc: Global,
    places: Places,
    origin: Cell,
    a: &Leaf,
    b: &Leaf,
    store: &mut Store,
) -> Result<Leaf, MadeFault>
    requires a { IsLawfulLeaf store.old a.now }
    requires b { IsLawfulLeaf store.old b.now }
    requires origin { IsOrigin origin }
    ensures { IfOk result (IsLawfulLeaf store.new) }
{
    let place = Some(a.copy());
    match places {
        Places::Only => gather_one(b, place, origin, store),
        Places::First => gather_two(b, place, None, origin, store),
        Places::Last => gather_two(b, None, place, origin, store),
        Places::Both => gather_two(b, place, Some(a.copy()), origin, store),
        Places::AndNine => gather_two(b, place, Some(nine(alloc)), origin, store),
    }
}

// The number 9, not stored.
fn nine(alloc: Global) -> Leaf
    ensures { (store : StoreView) → IsLawfulLeaf store result }
{
    Leaf::Gen {
        desc: Desc::one(alloc, 9),
        kind: Kind::Num,
    }
}

// A subscript of one position.
fn gather_one(
    b: &Leaf,
    place: Option<Leaf>,
    origin: Cell,
    store: &mut Store,
) -> Result<Leaf, MadeFault>
    requires b { IsLawfulLeaf store.old b.now }
    requires place { IfSome place (IsLawfulLeaf store.old) }
    requires origin { IsOrigin origin }
    ensures { IfOk result (IsLawfulLeaf store.new) }
{
    gather(b, &[place], origin, store)
}

// A subscript of two.
fn gather_two(
    b: &Leaf,
    first: Option<Leaf>,
    second: Option<Leaf>,
    origin: Cell,
    store: &mut Store,
) -> Result<Leaf, MadeFault>
    requires b { IsLawfulLeaf store.old b.now }
    requires first { IfSome first (IsLawfulLeaf store.old) }
    requires second { IfSome second (IsLawfulLeaf store.old) }
    requires origin { IsOrigin origin }
    ensures { IfOk result (IsLawfulLeaf store.new) }
{
    gather(b, &[first, second], origin, store)
}
