//! Literals as entries.

ghost use Rattle.std.specs.Prelude.{◌≡◌, ◌≢◌, [], ◌∷◌, length, IfOk, IfErr, OnOk};
ghost use Rattle.apl_base.specs.declared.faults.Place.{Place};
ghost use Rattle.apl_base.specs.Number.{IsCell};
ghost use Rattle.array_store.specs.Stores.{IsStore, HasRoom};
ghost use Rattle.array_store.specs.Follows.{Follows, Holds, none};
ghost use Rattle.drag_along.specs.Views.{StandsForArray};
ghost use Rattle.value_stack.specs.Stacks.{named_on, entries, IsLawfulStack};
ghost use Rattle.apl_model.specs.Evaluation.{literal_array};
ghost use Rattle.apl_model.specs.Grammar.{IsLiteral};
ghost use Rattle.e_machine.specs.Forced.{named_by_answer};
ghost use Rattle.apl_compile.specs.declared.codes.Op.TheVariants.{Lit};
ghost use Rattle.pending_steps.specs.Leaves.{IsStopped};
ghost use Rattle.pending_steps.specs.Literals.{IsLiteralLeaf};
ghost use Rattle.pending_steps.specs.Steps.{Moves, Steps, IsNotComputed, Reaches};

use crate::halts::Halt;
use crate::leaves::push_leaf;
use crate::rooms::settle_entries;
use apl_base::{Cell, Kind, NoMemory};
use apl_model::Literal;
use array_desc::Desc;
use array_store::{BeginFault, Store};
use drag_along::Leaf;
use made_leaf::{make_leaf, vector_shape};
use std::alloc::Global;
use value_stack::Stack;

/// A literal comes as the newest entry: one of a single cell as a leaf that is not stored, any other as a whole view of a
/// new owner of its cells. Before room is asked for, every entry that may fail is computed.
pub fn push_literal(
    alloc: Global,
    literal: &Literal,
    stack: &mut Stack,
    store: &mut Store,
) -> Result<(), Halt>
    requires literal { IsLiteral literal.now }
    requires lawful { IsLawfulStack store.old stack.old }
    requires held { Holds store.old (named_on stack.old) }
    ensures step { OnOk result ((place : Place)
        → Steps (record { place = place; op = Lit literal.now }) 0 1
        (entries store.old stack.old) (entries store.new stack.new)) }
    ensures moves { Reaches result (Moves store.old store.new stack.old stack.new none none) }
    ensures halted { IfErr result
        (IsNotComputed store.old.limit (entries store.old stack.old)) }
    ensures limit { store.new.limit ≡ store.old.limit }
{
    if let [cell] = literal.cells.as_slice() {
        push_single(alloc, *cell, literal, stack, store)?;
        return Ok(());
    }
    settle_entries(alloc, stack, store)?;
    push_stored(alloc, literal, stack, store)
}

// A literal of one cell comes as the newest entry.
fn push_single(
    alloc: Global,
    cell: Cell,
    literal: &Literal,
    stack: &mut Stack,
    store: &Store,
) -> Result<(), NoMemory>
    requires literal { IsLiteral literal.now }
    requires single { literal.now.cells ≡ cell ∷ [] }
    requires lawful { IsLawfulStack store.now stack.old }
    ensures step { OnOk result ((place : Place)
        → Steps (record { place = place; op = Lit literal.now }) 0 1
        (entries store.now stack.old) (entries store.now stack.new)) }
    ensures moves { OnOk result (Moves store.now store.now stack.old stack.new none none) }
{
    let leaf = single_literal(alloc, cell, literal.kind);
    push_leaf(alloc, leaf, stack, store)
}

// A literal of other than one cell comes as the newest entry.
fn push_stored(
    alloc: Global,
    literal: &Literal,
    stack: &mut Stack,
    store: &mut Store,
) -> Result<(), Halt>
    requires literal { IsLiteral literal.now }
    requires many { length literal.now.cells ≢ 1 }
    requires lawful { IsLawfulStack store.old stack.old }
    requires held { Holds store.old (named_on stack.old) }
    ensures step { OnOk result ((place : Place)
        → Steps (record { place = place; op = Lit literal.now }) 0 1
        (entries store.old stack.old) (entries store.new stack.new)) }
    ensures moves { OnOk result (Moves store.old store.new stack.old stack.new none none) }
    ensures stopped { IfErr result (IsStopped store.old.limit) }
    ensures limit { store.new.limit ≡ store.old.limit }
{
    let leaf = stored_literal(alloc, literal, store)?;
    push_leaf(alloc, leaf, stack, store)?;
    Ok(())
}

// A literal of other than one cell, in a new owner.
fn stored_literal(alloc: Global, literal: &Literal, store: &mut Store) -> Result<Leaf, Halt>
    requires literal { IsLiteral literal.now }
    requires many { length literal.now.cells ≢ 1 }
    ensures stands { IfOk result (λ leaf.
        StandsForArray store.new leaf (literal_array literal.now)) }
    ensures follows { Follows store.old store.new none (named_by_answer result) }
    ensures stopped { IfErr result (IsStopped store.old.limit) }
{
    let count = literal.cells.len() as u64;
    let mut cells = match store.begin(count) {
        Ok(cells) => cells,
        Err(BeginFault::WsFull { live, asked }) => return Err(Halt::WsFull { live, asked }),
        Err(BeginFault::NoMemory) => return Err(Halt::NoMemory),
    };
    let Ok(()) = cells.extend_from_slice(literal.cells.as_slice()) else {
        return Err(Halt::NoMemory);
    };
    let shape = vector_shape(alloc, count);
    Ok(make_leaf(cells, &shape, literal.kind, store)?)
}

// A literal of one cell, as a leaf that is not stored.
fn single_literal(alloc: Global, cell: Cell, kind: Kind) -> Leaf
    requires { IsCell kind cell }
    ensures { IsLiteralLeaf kind cell result }
{
    Leaf::Gen {
        desc: Desc::one(alloc, cell),
        kind,
    }
}
