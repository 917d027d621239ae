//! Functions of two arguments.

ghost use Rattle.std.specs.Prelude.{◌≡◌, ◌≤◌, length, IfOk, IfErr, IfSome, IfNone};
ghost use Rattle.apl_base.specs.Array.{Array};
ghost use Rattle.apl_base.specs.Selection.{CountsFit};
ghost use Rattle.array_store.specs.Stores.{IsStore};
ghost use Rattle.array_store.specs.Counting.{OnlyFetched};
ghost use Rattle.drag_along.specs.Lawful.{IsLawfulLeaf};
ghost use Rattle.apl_model.specs.Evaluation.{dyadic_value};
ghost use Rattle.apl_model.specs.Made.{transposed, take_or_pad, drop_from};
ghost use Rattle.apl_model_laws.specs.Lawful.{IsOrigin};
ghost use Rattle.leaf_names.specs.Variables.{array_of};
ghost use Rattle.selection_choices.specs.Choices.{SelectsTwo, Chooses, Errs, ChoosesOrTakesMore, axes_under, choice_from};
ghost use Rattle.selection_choices.specs.Left.{Lists, asked_for};

use crate::axes::{are_axes, axes_from};
use crate::choices::Choice;
use crate::counts::{axes_of, skip, take};
use crate::lefts::count_left;
use apl_base::{Cell, ErrorKind, Shape};
use apl_model::DyaFn;
use array_store::Store;
use beating::Selection;
use drag_along::Leaf;
use made_leaf::read_block;

/// What `A⍉B`, `A↑B` or `A↓B` makes of each B of a shape, or the first of its errors: none where counts are taken that
/// don't fit. A is read once. It takes no memory.
pub fn choose_two(
    f: DyaFn,
    origin: Cell,
    left: &Leaf,
    shape: &Shape,
    store: &mut Store,
) -> Result<Option<Choice>, ErrorKind>
    requires selects { SelectsTwo f }
    requires origin { IsOrigin origin }
    requires left { IsLawfulLeaf store.old left.now }
    ensures chooses { IfOk result (ChoosesOrTakesMore
        (dyadic_value origin f (array_of store.old left.now)) f
        (array_of store.old left.now) shape.now) }
    ensures refused { IfErr result
        (Errs (dyadic_value origin f (array_of store.old left.now)) shape.now) }
    ensures counted { OnlyFetched store.old store.new 8 }
    ensures store { IsStore store.new }
{
    // It tells the proof that the counts are numbers of a machine.
    let _counts = store.counts();
    let count = count_left(f, left, shape)?;
    let mut block = [0; 8];
    let numbers = &mut block[..count];
    read_block(left, 0, store, numbers);
    choice_by(f, origin, numbers, shape)
}

// The choice by these numbers, as many as the function asks for.
fn choice_by(
    f: DyaFn,
    origin: Cell,
    numbers: &[Cell],
    shape: &Shape,
) -> Result<Option<Choice>, ErrorKind>
    requires selects { SelectsTwo f }
    requires origin { IsOrigin origin }
    requires few { length numbers.now ≤ 8 }
    requires asked { length numbers.now ≡ asked_for f (length numbers.now) shape.now }
    ensures chooses { IfOk result (λ c. (a : Array) → Lists numbers.now a
        → ChoosesOrTakesMore (dyadic_value origin f a) f a shape.now c) }
    ensures refused { IfErr result (λ kind. (a : Array) → Lists numbers.now a
        → Errs (dyadic_value origin f a) shape.now kind) }
{
    match f {
        DyaFn::Transpose => Ok(Some(transposition(numbers, origin, shape)?)),
        DyaFn::Take => Ok(taking(numbers, shape)),
        DyaFn::Skip => Ok(Some(skipping(numbers, shape))),
        DyaFn::Scalar { .. }
        | DyaFn::Reshape
        | DyaFn::Catenate
        | DyaFn::Rotate { .. }
        | DyaFn::Compress { .. }
        | DyaFn::Expand { .. }
        | DyaFn::IndexOf
        | DyaFn::Member
        | DyaFn::Encode
        | DyaFn::Decode => unreachable!(),
    }
}

// Each axis goes to the one that its number names.
fn transposition(numbers: &[Cell], origin: Cell, shape: &Shape) -> Result<Choice, ErrorKind>
    requires origin { IsOrigin origin }
    requires count { length numbers.now ≡ length shape.now }
    ensures chooses { IfOk result (λ c. (a : Array) → Lists numbers.now a
        → Chooses (transposed origin a) shape.now c) }
    ensures refused { IfErr result (λ kind. (a : Array) → Lists numbers.now a
        → Errs (transposed origin a) shape.now kind) }
{
    if !are_axes(numbers, origin) {
        return Err(ErrorKind::Domain);
    }
    Ok(Choice::Select {
        by: Selection::Transpose {
            axes: axes_from(numbers, origin, shape),
        },
    })
}

// Counts are taken, where they fit.
fn taking(counts: &[Cell], shape: &Shape) -> Option<Choice>
    requires few { length counts.now ≤ 8 }
    requires asked { length counts.now
        ≡ length (axes_under (length counts.now) shape.now) }
    ensures chooses { IfSome result (λ c. (a : Array) → Lists counts.now a
        → Chooses (take_or_pad a) shape.now c) }
    ensures more { IfNone result
        (¬ (CountsFit (axes_under (length counts.now) shape.now) counts.now)) }
{
    let axes = axes_of(counts.len(), shape);
    let by = take(counts, &axes)?;
    Some(from_axes(axes, by, shape))
}

// Counts are dropped.
fn skipping(counts: &[Cell], shape: &Shape) -> Choice
    requires few { length counts.now ≤ 8 }
    requires asked { length counts.now
        ≡ length (axes_under (length counts.now) shape.now) }
    ensures { (a : Array) → Lists counts.now a → Chooses (drop_from a) shape.now result }
{
    let axes = axes_of(counts.len(), shape);
    let by = skip(counts, &axes);
    from_axes(axes, by, shape)
}

// A selection from these axes, which a scalar is extended to.
fn from_axes(axes: Shape, by: Selection, shape: &Shape) -> Choice
    ensures { result ≡ choice_from axes by shape.now }
{
    if shape.rank() > 0 {
        return Choice::Select { by };
    }
    Choice::Widen { to: axes, by }
}
