//! Positions of a subscript that are one place or a run of places.

ghost use Rattle.std.specs.Prelude.{◌≡◌, ℕ, pos, ◌-ℤ◌, ◌-◌, ◌^◌, ◌<◌, ◌≤◌, IfOk, OnOk, IfErr, IfSome, IfNone};
ghost use Rattle.apl_base.specs.Number.{IsNumber};
ghost use Rattle.beating.specs.Runs.{run_value};
ghost use Rattle.beating.specs.Positions.{ArePositions, NamesPlace, OnAxis, LeavesAxis, IsItemOf};

use crate::runs::Run;
use crate::selections::Item;
use apl_base::{Cell, ErrorKind};

/// The item of a subscript that positions are, on an axis of `length` elements: one place where they are a scalar, and
/// a run where they are a vector. A position v names the place v - `origin`, counted from 0; where one names none of
/// the axis, that is INDEX ERROR.
pub fn item_of(
    positions: Run,
    is_scalar: bool,
    origin: Cell,
    length: u64,
) -> Result<Item, ErrorKind>
    requires positions { ArePositions positions is_scalar }
    requires origin { IsNumber origin }
    requires length { length ≤ 2 ^ 40 }
    ensures item { IfOk result (IsItemOf origin length positions is_scalar) }
    ensures on_axis { OnOk result (OnAxis origin length positions) }
    ensures refused { IfErr result (λ kind.
        (kind ≡ ErrorKind.Index) × LeavesAxis origin length positions) }
{
    if positions.n == 0 {
        return Ok(Item::Run {
            from: 0,
            step: 0,
            n: 0,
        });
    }
    let Some(from) = place_of(positions.from, origin, length) else {
        return Err(ErrorKind::Index);
    };
    let Some(_) = place_of(last_of(positions), origin, length) else {
        return Err(ErrorKind::Index);
    };
    if is_scalar {
        return Ok(Item::At { i: from });
    }
    Ok(Item::Run {
        from,
        step: positions.step as i64,
        n: positions.n,
    })
}

// The last position.
fn last_of(positions: Run) -> Cell
    requires some { 0 < positions.n }
    requires numbers { (j : ℕ) → j < positions.n → IsNumber (run_value positions j) }
    ensures value { result ≡ run_value positions (positions.n - 1) }
{
    positions.from + positions.step * (positions.n - 1) as Cell
}

// The place that a position names, where that is one of an axis of this length.
fn place_of(position: Cell, origin: Cell, length: u64) -> Option<u64>
    requires position { IsNumber position }
    requires origin { IsNumber origin }
    ensures named { IfSome result (λ place.
        (pos place ≡ position -ℤ origin) × (place < length)) }
    ensures off { IfNone result (¬ (NamesPlace origin length position)) }
{
    let place = position - origin;
    if place < 0 || length as Cell <= place {
        return None;
    }
    Some(place as u64)
}
