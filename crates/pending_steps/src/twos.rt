//! Scalar functions of the two newest entries.

ghost use Rattle.std.specs.Prelude.{◌≡◌, ℕ, ◌+◌, ◌-◌, ◌<◌, ◌≤◌, length, false, Err, Some, slice_get, IfOk, IfErr, OnOk};
ghost use Rattle.array_store.specs.Stores.{IsStore};
ghost use Rattle.array_store.specs.Follows.{Holds, none};
ghost use Rattle.drag_along.specs.Nodes.{functions_in};
ghost use Rattle.drag_along.specs.Segments.{SegmentView};
ghost use Rattle.value_stack.specs.Stacks.{named_on, entries, IsLawfulStack};
ghost use Rattle.apl_model.specs.declared.functions.DyaFn.TheVariants.{Scalar};
ghost use Rattle.apl_model.specs.Lift.{fitting_shape};
ghost use Rattle.apl_compile.specs.declared.codes.Op.TheVariants.{Dya};
ghost use Rattle.pending_steps.specs.Fits.{IsFit, ExtendsSafe};
ghost use Rattle.pending_steps.specs.Shapes.{shapes_of, newest_shape, second_shape};
ghost use Rattle.pending_steps.specs.Steps.{Moves, Steps, IsNotComputed, IsHalted, Reaches};

use crate::fits::{Fit, shapes_fit};
use crate::halts::Halt;
use crate::pairs::{Operands, join_fitted};
use crate::rooms::{compute_entry, settle_entries};
use apl_base::{Dya as TwoFunction, ErrorKind, NoMemory, Place};
use array_store::Store;
use std::alloc::Global;
use value_stack::Stack;

/// The most functions that an expression has pending.
const MOST_FUNCTIONS: usize = 64;

/// A scalar function of the two newest entries, the left operand the newest, deferred. RANK ERROR and LENGTH ERROR come
/// where the shapes don't fit, after the fault of any entry. An operand of one element is extended, and computed before
/// where it may fail; and where both have 64 functions or more, the one that has more is computed first.
pub fn scalar_two(
    alloc: Global,
    f: TwoFunction,
    place: Place,
    stack: &mut Stack,
    store: &mut Store,
) -> Result<(), Halt>
    requires operands { 2 ≤ length stack.old }
    requires lawful { IsLawfulStack store.old stack.old }
    requires held { Holds store.old (named_on stack.old) }
    ensures step { OnOk result (Steps (record { place = place; op = Dya (Scalar f) }) 2 1
        (entries store.old stack.old) (entries store.new stack.new)) }
    ensures moves { Reaches result (Moves store.old store.new stack.old stack.new none none) }
    ensures halted { IfErr result (IsHalted (record { place = place; op = Dya (Scalar f) }) 2
        store.old.limit (entries store.old stack.old)) }
    ensures limit { store.new.limit ≡ store.old.limit }
{
    let fit = match newest_fit(stack) {
        Ok(fit) => fit,
        Err(kind) => return Err(refuse(alloc, f, kind, place, stack, store)),
    };
    make_ready(alloc, fit, stack, store)?;
    join_newest_two(alloc, fit, f, place, stack, store)?;
    Ok(())
}

// The error of shapes that don't fit, after the fault of any entry.
fn refuse(
    alloc: Global,
    f: TwoFunction,
    kind: ErrorKind,
    place: Place,
    stack: &mut Stack,
    store: &mut Store,
) -> Halt
    requires operands { 2 ≤ length stack.old }
    requires lawful { IsLawfulStack store.old stack.old }
    requires held { Holds store.old (named_on stack.old) }
    requires unfit { fitting_shape (newest_shape stack.old) (second_shape stack.old) ≡ Err kind }
    ensures halted { IsHalted (record { place = place; op = Dya (Scalar f) }) 2
        store.old.limit (entries store.old stack.old) result }
    ensures moves { Moves store.old store.new stack.old stack.new none none }
{
    match settle_entries(alloc, stack, store) {
        Ok(()) => Halt::Error { kind, place },
        Err(halt) => halt,
    }
}

// The two newest entries have fewer than 64 functions, and the one that extends can't fail.
fn make_ready(alloc: Global, fit: Fit, stack: &mut Stack, store: &mut Store) -> Result<(), Halt>
    requires operands { 2 ≤ length stack.old }
    requires lawful { IsLawfulStack store.old stack.old }
    requires held { Holds store.old (named_on stack.old) }
    ensures few { OnOk result ((left right : SegmentView)
        → slice_get stack.new (length stack.new - 1) ≡ Some left
        → slice_get stack.new (length stack.new - 2) ≡ Some right
        → functions_in right.nodes + functions_in left.nodes < 64) }
    ensures safe { OnOk result ((left right : SegmentView)
        → slice_get stack.new (length stack.new - 1) ≡ Some left
        → slice_get stack.new (length stack.new - 2) ≡ Some right
        → ExtendsSafe fit left right) }
    ensures halted { IfErr result
        (IsNotComputed store.old.limit (entries store.old stack.old)) }
    ensures means { entries store.new stack.new ≡ entries store.old stack.old }
    ensures moves { Moves store.old store.new stack.old stack.new none none }
    ensures shapes { OnOk result (shapes_of stack.new ≡ shapes_of stack.old) }
    ensures length { length stack.new ≡ length stack.old }
{
    make_room_for_two(alloc, stack, store)?;
    if extends_failing(fit, stack) {
        settle_entries(alloc, stack, store)?;
    }
    Ok(())
}

// Whether the operand that extends may fail.
fn extends_failing(fit: Fit, stack: &Stack) -> bool
    requires { 2 ≤ length stack.now }
    ensures { result ≡ false → (left right : SegmentView)
        → slice_get stack.now (length stack.now - 1) ≡ Some left
        → slice_get stack.now (length stack.now - 2) ≡ Some right
        → ExtendsSafe fit left right }
{
    let newest = stack.len() - 1;
    match fit {
        Fit::Alike => false,
        Fit::LeftExtends => stack.entry(newest).may_fail,
        Fit::RightExtends => stack.entry(newest - 1).may_fail,
    }
}

// The two newest entries give way to their join.
fn join_newest_two(
    alloc: Global,
    fit: Fit,
    f: TwoFunction,
    place: Place,
    stack: &mut Stack,
    store: &Store,
) -> Result<(), NoMemory>
    requires operands { 2 ≤ length stack.old }
    requires lawful { IsLawfulStack store.now stack.old }
    requires fit { IsFit (newest_shape stack.old) (second_shape stack.old) fit }
    requires safe { (left right : SegmentView)
        → slice_get stack.old (length stack.old - 1) ≡ Some left
        → slice_get stack.old (length stack.old - 2) ≡ Some right
        → ExtendsSafe fit left right }
    requires few { (left right : SegmentView)
        → slice_get stack.old (length stack.old - 1) ≡ Some left
        → slice_get stack.old (length stack.old - 2) ≡ Some right
        → functions_in right.nodes + functions_in left.nodes < 64 }
    ensures step { OnOk result (Steps (record { place = place; op = Dya (Scalar f) }) 2 1
        (entries store.now stack.old) (entries store.now stack.new)) }
    ensures lawful { OnOk result (IsLawfulStack store.now stack.new) }
    ensures leaves { OnOk result ((key : ℕ) → named_on stack.new key ≡ named_on stack.old key) }
{
    let Some(left) = stack.pop() else {
        unreachable!()
    };
    let Some(right) = stack.pop() else {
        unreachable!()
    };
    let joined = join_fitted(alloc, Operands { left, right }, fit, f, place, store)?;
    stack.push(joined)
}

// How the shapes of the two newest entries fit, the left operand the newest.
fn newest_fit(stack: &Stack) -> Result<Fit, ErrorKind>
    requires { 2 ≤ length stack.now }
    ensures fits { IfOk result (IsFit (newest_shape stack.now) (second_shape stack.now)) }
    ensures error { IfErr result (λ kind.
        fitting_shape (newest_shape stack.now) (second_shape stack.now) ≡ Err kind) }
{
    let newest = stack.len() - 1;
    shapes_fit(&stack.entry(newest).shape, &stack.entry(newest - 1).shape)
}

// Computes one of the two newest entries, or both, where they have 64 functions or more together: first the one that
// has more. Each entry means what it meant.
fn make_room_for_two(alloc: Global, stack: &mut Stack, store: &mut Store) -> Result<(), Halt>
    requires operands { 2 ≤ length stack.old }
    requires lawful { IsLawfulStack store.old stack.old }
    requires held { Holds store.old (named_on stack.old) }
    ensures few { OnOk result ((left right : SegmentView)
        → slice_get stack.new (length stack.new - 1) ≡ Some left
        → slice_get stack.new (length stack.new - 2) ≡ Some right
        → functions_in right.nodes + functions_in left.nodes < 64) }
    ensures halted { IfErr result
        (IsNotComputed store.old.limit (entries store.old stack.old)) }
    ensures means { entries store.new stack.new ≡ entries store.old stack.old }
    ensures moves { Moves store.old store.new stack.old stack.new none none }
    ensures shapes { OnOk result (shapes_of stack.new ≡ shapes_of stack.old) }
    ensures length { length stack.new ≡ length stack.old }
{
    let left = stack.len() - 1;
    let right = left - 1;
    if functions_of_two(stack) < MOST_FUNCTIONS {
        return Ok(());
    }
    if stack.entry(left).functions() > stack.entry(right).functions() {
        compute_two(alloc, left, right, stack, store)
    } else {
        compute_two(alloc, right, left, stack, store)
    }
}

// Computes an entry, and another one where both have 64 functions or more together even then.
#[tactic(auto, using(crate::proofs::FewerLemmas::fewer_then, crate::proofs::FewerLemmas::none_stays))]
fn compute_two(
    alloc: Global,
    first: usize,
    second: usize,
    stack: &mut Stack,
    store: &mut Store,
) -> Result<(), Halt>
    requires first { first < length stack.old }
    requires second { second < length stack.old }
    requires lawful { IsLawfulStack store.old stack.old }
    requires held { Holds store.old (named_on stack.old) }
    ensures few { OnOk result ((one other : SegmentView)
        → slice_get stack.new first ≡ Some one
        → slice_get stack.new second ≡ Some other
        → functions_in one.nodes + functions_in other.nodes < 64) }
    ensures halted { IfErr result
        (IsNotComputed store.old.limit (entries store.old stack.old)) }
    ensures means { entries store.new stack.new ≡ entries store.old stack.old }
    ensures moves { Moves store.old store.new stack.old stack.new none none }
    ensures shapes { OnOk result (shapes_of stack.new ≡ shapes_of stack.old) }
    ensures length { length stack.new ≡ length stack.old }
{
    compute_entry(alloc, first, stack, store)?;
    if stack.entry(first).functions() + stack.entry(second).functions() < MOST_FUNCTIONS {
        return Ok(());
    }
    compute_entry(alloc, second, stack, store)
}

// How many functions the two newest entries have together.
fn functions_of_two(stack: &Stack) -> usize
    requires { 2 ≤ length stack.now }
    ensures { (left right : SegmentView)
        → slice_get stack.now (length stack.now - 1) ≡ Some left
        → slice_get stack.now (length stack.now - 2) ≡ Some right
        → result ≡ functions_in right.nodes + functions_in left.nodes }
{
    let newest = stack.len() - 1;
    stack.entry(newest - 1).functions() + stack.entry(newest).functions()
}
