//! The left argument of a function that selects.

ghost use Rattle.std.specs.Prelude.{◌≡◌, ℤ, ◌≤◌, length, OnOk, IfOk, IfErr};
ghost use Rattle.apl_base.specs.Array.{size_of, IsShape};
ghost use Rattle.array_desc.specs.Desc.{IsDesc};
ghost use Rattle.array_store.specs.Stores.{StoreView};
ghost use Rattle.drag_along.specs.Nodes.{leaf_desc, leaf_shape};
ghost use Rattle.apl_model.specs.Evaluation.{dyadic_value};
ghost use Rattle.leaf_names.specs.Variables.{array_of};
ghost use Rattle.pending_laws.specs.Selections.{IsNumberList};
ghost use Rattle.selection_choices.specs.Choices.{SelectsTwo, Errs};
ghost use Rattle.selection_choices.specs.Left.{asked_for};

use apl_base::{ErrorKind, Kind, Shape};
use apl_model::DyaFn;
use drag_along::Leaf;

/// The most axes that an array may have.
const MOST_AXES: u64 = 8;

/// How many numbers the left argument lists, where it lists as many as the function asks for; or its RANK, LENGTH,
/// DOMAIN or LIMIT ERROR, where the shapes and the kind tell it.
pub fn count_left(f: DyaFn, left: &Leaf, shape: &Shape) -> Result<usize, ErrorKind>
    requires selects { SelectsTwo f }
    ensures count { IfOk result (λ n. n ≡ size_of (leaf_shape left.now)) }
    ensures few { IfOk result (λ n. n ≤ 8) }
    ensures asked { IfOk result (λ n. n ≡ asked_for f n shape.now) }
    ensures list { OnOk result ((store : StoreView) → IsNumberList (array_of store left.now)) }
    ensures refused { IfErr result (λ kind. (origin : ℤ) (store : StoreView)
        → Errs (dyadic_value origin f (array_of store left.now)) shape.now kind) }
    ensures lawful { IsDesc (leaf_desc left.now) }
{
    let desc = left.desc();
    let count = desc.size();
    if desc.shape.rank() > 1 {
        return Err(ErrorKind::Rank);
    }
    if count != asked_for(f, count, shape) {
        return Err(ErrorKind::Length);
    }
    if left.kind() == Kind::Char && count > 0 {
        return Err(ErrorKind::Domain);
    }
    if count > MOST_AXES {
        return Err(ErrorKind::Limit);
    }
    Ok(count as usize)
}

// How many numbers the function asks for that are given so many.
fn asked_for(f: DyaFn, count: u64, shape: &Shape) -> u64
    requires selects { SelectsTwo f }
    ensures value { result ≡ asked_for f count shape.now }
    ensures lawful { IsShape shape.now }
{
    if f != DyaFn::Transpose && shape.rank() == 0 {
        return count;
    }
    shape.rank() as u64
}
