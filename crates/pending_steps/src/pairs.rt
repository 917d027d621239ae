//! The join of two operands whose shapes fit.

ghost use Rattle.std.specs.Prelude.{◌≡◌, ℕ, ◌+◌, ◌<◌, IfOk};
ghost use Rattle.array_store.specs.Follows.{both};
ghost use Rattle.drag_along.specs.Nodes.{functions_in};
ghost use Rattle.drag_along.specs.Segments.{named_by};
ghost use Rattle.drag_along.specs.Meaning.{entry};
ghost use Rattle.drag_along.specs.Lawful.{IsLawful};
ghost use Rattle.apl_model.specs.declared.functions.DyaFn.TheVariants.{Scalar};
ghost use Rattle.apl_model.specs.Evaluation.{Calls};
ghost use Rattle.apl_compile.specs.declared.codes.Op.TheVariants.{Dya};
ghost use Rattle.standing.specs.Stand.{Stand, push_on};
ghost use Rattle.standing.specs.Laws.{Takes};
ghost use Rattle.pending_steps.specs.Fits.{IsFit, ExtendsSafe, AreWidened};

use crate::fits::Fit;
use crate::joins::{extend, join_two};
use apl_base::{Dya as TwoFunction, NoMemory, Place};
use array_store::Store;
use drag_along::Segment;
use std::alloc::Global;

/// `A f B` of operands whose shapes fit, deferred: one of a single element is extended to the shape of the other.
#[tactic(auto, using(crate::proofs::PairLemmas::numbers_in_range, crate::proofs::PairLemmas::widened_step))]
pub fn join_fitted(
    alloc: Global,
    operands: Operands,
    fit: Fit,
    f: TwoFunction,
    place: Place,
    store: &Store,
) -> Result<Segment, NoMemory>
    requires left { IsLawful store.now operands.left }
    requires right { IsLawful store.now operands.right }
    requires fit { IsFit operands.left.shape operands.right.shape fit }
    requires safe { ExtendsSafe fit operands.left operands.right }
    requires few { functions_in operands.right.nodes + functions_in operands.left.nodes < 64 }
    ensures lawful { IfOk result (λ joined. IsLawful store.now joined) }
    ensures leaves { IfOk result (λ joined. (key : ℕ) → named_by joined key
        ≡ both (named_by operands.right) (named_by operands.left) key) }
    ensures step { IfOk result (λ joined. (calls : Calls) (z : Stand)
        → Takes calls (record { place = place; op = Dya (Scalar f) })
        (push_on (entry store.now operands.left) (push_on (entry store.now operands.right) z))
        (push_on (entry store.now joined) z)) }
{
    let wide = widened(operands, fit, store);
    // It tells the proof that both are segments.
    let _functions = (wide.left.functions(), wide.right.functions());
    join_two(alloc, wide.right, wide.left, f, place)
}

// `A f B` of operands of one shape, deferred.
#[tactic(auto, using(crate::proofs::PairLemmas::numbers_in_range))]
fn join_alike(
    alloc: Global,
    operands: Operands,
    f: TwoFunction,
    place: Place,
    store: &Store,
) -> Result<Segment, NoMemory>
    requires left { IsLawful store.now operands.left }
    requires right { IsLawful store.now operands.right }
    requires alike { operands.left.shape ≡ operands.right.shape }
    requires few { functions_in operands.right.nodes + functions_in operands.left.nodes < 64 }
    ensures lawful { IfOk result (λ joined. IsLawful store.now joined) }
    ensures leaves { IfOk result (λ joined. (key : ℕ) → named_by joined key
        ≡ both (named_by operands.right) (named_by operands.left) key) }
    ensures step { IfOk result (λ joined. (calls : Calls) (z : Stand)
        → Takes calls (record { place = place; op = Dya (Scalar f) })
        (push_on (entry store.now operands.left) (push_on (entry store.now operands.right) z))
        (push_on (entry store.now joined) z)) }
{
    let Operands { left, right } = operands;
    // They tell the proof that both are segments.
    let _functions = (left.functions(), right.functions());
    join_two(alloc, right, left, f, place)
}

// Both operands over the shape that they fit.
fn widened(operands: Operands, fit: Fit, store: &Store) -> Operands
    requires left { IsLawful store.now operands.left }
    requires right { IsLawful store.now operands.right }
    requires fit { IsFit operands.left.shape operands.right.shape fit }
    requires safe { ExtendsSafe fit operands.left operands.right }
    ensures left { IsLawful store.now result.left }
    ensures right { IsLawful store.now result.right }
    ensures wide { AreWidened store.now operands.left operands.right result.left result.right }
    ensures shapes { result.left.shape ≡ result.right.shape }
    ensures left_leaves { (key : ℕ) → named_by result.left key ≡ named_by operands.left key }
    ensures right_leaves { (key : ℕ) → named_by result.right key ≡ named_by operands.right key }
    ensures left_functions { functions_in result.left.nodes ≡ functions_in operands.left.nodes }
    ensures right_functions { functions_in result.right.nodes ≡ functions_in operands.right.nodes }
{
    let Operands { left, right } = operands;
    // They tell the proof that both are segments.
    let _functions = (left.functions(), right.functions());
    match fit {
        Fit::Alike => Operands { left, right },
        Fit::LeftExtends => {
            let left = extend(left, &right.shape);
            Operands { left, right }
        }
        Fit::RightExtends => {
            let right = extend(right, &left.shape);
            Operands { left, right }
        }
    }
}

/// The operands of a function of two arguments.
#[derive(Drop)]
pub struct Operands {
    pub left: Segment,
    pub right: Segment,
}
