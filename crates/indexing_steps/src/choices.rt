//! How a subscript is answered: by a selection, or it is made, or it is an error.

ghost use Rattle.std.specs.Prelude.{◌≡◌, length, All, IfSome};
ghost use Rattle.std.specs.List.{list_any};
ghost use Rattle.std.specs.Option.{option_map};
ghost use Rattle.array_store.specs.Counting.{OnlyCounted};
ghost use Rattle.array_store.specs.Stores.{StoreView};
ghost use Rattle.drag_along.specs.Lawful.{IsLawfulLeaf};
ghost use Rattle.apl_model.specs.Subscript.{is_text_position};
ghost use Rattle.apl_model_laws.specs.Lawful.{IsOrigin};
ghost use Rattle.leaf_names.specs.Variables.{array_of};
ghost use Rattle.indexing_steps.specs.Choices.{IsChoice, IsFitted};
ghost use Rattle.indexing_steps.specs.Operands.{arrays_of};

use crate::fitting::lengths_kept;
use crate::items::items_of;
use apl_base::{Cell, ErrorKind, Kind, Shape};
use array_store::Store;
use beating::{Item, Selection};
use drag_along::Leaf;
use smallvec::SmallVec;
use std::alloc::Global;

/// How a subscript is answered.
#[derive(Drop)]
pub enum Choice {
    /// Its positions are left out, scalars or numbers in progression: it is this selection.
    Select { by: Selection },
    /// It is made.
    Gather,
    /// It is this error.
    Refuse { kind: ErrorKind },
}

/// How a subscript of an array of this shape is answered. Errors come in this order: RANK ERROR where there is not one
/// position for each axis, DOMAIN ERROR where a position is characters, INDEX ERROR where one names no place of its axis,
/// LIMIT ERROR where the lengths kept make no shape. Where the subscript is to be made, its INDEX ERROR and LIMIT ERROR
/// are not looked for. It takes no memory.
pub fn choose(
    alloc: Global,
    shape: &Shape,
    positions: &[Option<Leaf>],
    origin: Cell,
    store: &mut Store,
) -> Choice
    requires lawful { All (λ p. IfSome p (IsLawfulLeaf store.old)) positions.now }
    requires origin { IsOrigin origin }
    ensures choice { IsChoice origin shape.now (arrays_of store.old positions.now) result }
    ensures counted { OnlyCounted store.old store.new }
{
    if positions.len() != shape.rank() {
        return Choice::Refuse {
            kind: ErrorKind::Rank,
        };
    }
    if has_text(positions) {
        return Choice::Refuse {
            kind: ErrorKind::Domain,
        };
    }
    match items_of(alloc, shape, positions, origin, store) {
        Ok(Some(items)) => choose_items(alloc, shape, items),
        Ok(None) => Choice::Gather,
        Err(kind) => Choice::Refuse { kind },
    }
}

// The selection by these items, or LIMIT ERROR where the lengths that they keep make no shape.
fn choose_items(alloc: Global, shape: &Shape, items: SmallVec<Item, 8>) -> Choice
    requires count { length items.items ≡ length shape.now }
    ensures choice { IsFitted shape.now items.items result }
{
    let lengths = lengths_kept(alloc, shape, items.as_slice());
    match Shape::of(alloc, lengths.as_slice()) {
        Ok(_) => Choice::Select {
            by: Selection::Index { items },
        },
        Err(_) => Choice::Refuse {
            kind: ErrorKind::Limit,
        },
    }
}

/// Whether a position is characters, of which there is one at least.
pub fn has_text(positions: &[Option<Leaf>]) -> bool
    ensures { (store : StoreView)
        → result ≡ list_any is_text_position (arrays_of store positions.now) }
{
    for position in positions {
        if is_text(position) {
            return true;
        }
    }
    false
}

// Whether a position is characters, of which there is one at least.
fn is_text(position: &Option<Leaf>) -> bool
    ensures { (store : StoreView)
        → result ≡ is_text_position (option_map (array_of store) position.now) }
{
    match position {
        Some(leaf) => leaf.kind() == Kind::Char && leaf.desc().size() != 0,
        None => false,
    }
}
