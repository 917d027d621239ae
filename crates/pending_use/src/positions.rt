//! A subscript by positions that are an arithmetic progression.

ghost use Rattle.std.specs.Prelude.{◌≡◌, ℕ, ◌+◌, ◌^◌, ◌≤◌, false, length, [], ◌∷◌, slice_index, OnOk, IfErr, OnErr};
ghost use Rattle.apl_base.specs.Number.{IsNumber};
ghost use Rattle.drag_along.specs.Nodes.{functions_in, stored_in};
ghost use Rattle.beating.specs.Positions.{ArePositions, LeavesAxis};
ghost use Rattle.pending_use.specs.Uses.{SelectsPositions};

use apl_base::{Cell, ErrorKind};
use beating::{Item, Run, Selection, item_of, select};
use drag_along::Segment;
use smallvec::SmallVec;
use std::alloc::Global;

/// Keeps the elements of a pending vector that can't fail at these positions, counted from the origin. As many
/// functions and stored operands are pending as before. Where a position names no element, that is INDEX ERROR, and the
/// vector is as it was.
pub fn select_positions(
    alloc: Global,
    s: &mut Segment,
    positions: Run,
    origin: Cell,
) -> Result<(), ErrorKind>
    requires safe { s.old.may_fail ≡ false }
    requires vector { length s.old.shape ≡ 1 }
    requires positions { ArePositions positions false }
    requires few { positions.n ≤ 2 ^ 40 }
    requires origin { IsNumber origin }
    ensures selected { OnOk result (SelectsPositions origin positions s.old s.new) }
    ensures functions { functions_in s.new.nodes ≡ functions_in s.old.nodes }
    ensures stored { stored_in s.new.nodes ≡ stored_in s.old.nodes }
    ensures refused { IfErr result (λ kind. (kind ≡ ErrorKind.Index)
        × LeavesAxis origin (slice_index s.old.shape 0) positions) }
    ensures unchanged { OnErr result (s.new ≡ s.old) }
{
    let item = item_of(positions, false, origin, s.shape.len(0))?;
    select(
        s,
        &Selection::Index {
            items: one_item(alloc, item),
        },
    );
    Ok(())
}

// A list of one item. It takes no memory.
fn one_item(alloc: Global, item: Item) -> SmallVec<Item, 8>
    ensures { result.items ≡ item ∷ [] }
{
    let mut items = SmallVec::new(alloc);
    items.push_reserved(item);
    items
}
