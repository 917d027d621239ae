//! Entries that get an owner of their own.

ghost use Rattle.std.specs.Prelude.{◌≡◌, ◌⊎◌, ℕ, ◌-◌, ◌<◌, length, None, Some, slice_get, slice_set, IsTrue, IfOk, IfErr, OnOk, OnErr};
ghost use Rattle.std.specs.Option.{ForSome};
ghost use Rattle.std.specs.List.{filter};
ghost use Rattle.array_store.specs.Stores.{IsStore, HasRoom, holders_of, cells_of, interval_of};
ghost use Rattle.array_store.specs.Follows.{Follows, Holds, none, both};
ghost use Rattle.drag_along.specs.Nodes.{named_by_leaf, stored_of_leaf, leaf_shape};
ghost use Rattle.drag_along.specs.Segments.{SegmentView, IsSegment, named_by, leaf_segment};
ghost use Rattle.drag_along.specs.Lawful.{IsLawful, IsLawfulLeaf, LeafWithin};
ghost use Rattle.drag_along.specs.Views.{only_leaf};
ghost use Rattle.e_machine.specs.Forced.{named_by_answer};
ghost use Rattle.value_stack.specs.Stacks.{named_on, entries, IsLawfulStack};
ghost use Rattle.alias_force.specs.Steps.{moves, IsComputed, IsNotComputed, IsAlone, PutsLeaf, LetsGo, MovesEntry, RefusesEntry};

use apl_base::NoMemory;
use array_store::{OwnerId, Store};
use drag_along::{Leaf, Segment, leaf_interval};
use e_machine::{ForceFault, force, own};
use std::alloc::Global;
use value_stack::Stack;

/// The entries that get an owner of their own.
#[derive(Clone, Copy)]
pub enum Which {
    /// Those that may fail.
    Failing,
    /// Those that read this owner.
    Reading(OwnerId),
}

/// Gives one entry an owner of its own, where it is no leaf that is not stored: it is forced, or copied where it is a
/// leaf, and one leaf that means the same comes in its place. After a refusal the stack is as it was.
pub fn move_entry(
    alloc: Global,
    at: usize,
    stack: &mut Stack,
    store: &mut Store,
) -> Result<(), ForceFault>
    requires within { at < length stack.old }
    requires lawful { IsLawfulStack store.old stack.old }
    requires held { Holds store.old (named_on stack.old) }
    requires stored { (segment : SegmentView) → slice_get stack.old at ≡ Some segment
        → ForSome (only_leaf segment.nodes) (λ leaf. stored_of_leaf leaf ≡ 1) }
    ensures moved { OnOk result (MovesEntry store.old store.new stack.old stack.new at) }
    ensures kept { OnErr result (stack.new ≡ stack.old) }
    ensures refused { IfErr result (RefusesEntry store.old store.new stack.old at) }
    ensures means { entries store.new stack.new ≡ entries store.old stack.old }
    ensures lawful { IsLawfulStack store.new stack.new }
    ensures follows { Follows store.old store.new (named_on stack.old) (named_on stack.new) }
    ensures store { IsStore store.new }
{
    // It tells the proof that the counts are numbers of a machine.
    let _counts = store.counts();
    let leaf = computed(stack.entry(at), store)?;
    let Ok(()) = put_leaf(alloc, leaf, at, stack, store) else {
        return Err(ForceFault::NoMemory);
    };
    Ok(())
}

/// Whether an entry is one of those.
pub fn is_moved(which: &Which, s: &Segment) -> bool
    ensures value { result ≡ moves which.now s.now }
    ensures stored { IsTrue result
        → ForSome (only_leaf s.now.nodes) (λ leaf. stored_of_leaf leaf ≡ 1) }
{
    match which {
        Which::Failing => s.may_fail,
        Which::Reading(owner) => s.names(*owner),
    }
}

// The elements of a pending expression in a new owner. One that is a leaf is copied.
fn computed(s: &Segment, store: &mut Store) -> Result<Leaf, ForceFault>
    requires lawful { IsLawful store.old s.now }
    requires stored { ForSome (only_leaf s.now.nodes) (λ leaf. stored_of_leaf leaf ≡ 1) }
    ensures computed { IfOk result (IsComputed store.old store.new s.now) }
    ensures follows { Follows store.old store.new none (named_by_answer result) }
    ensures refused { IfErr result (IsNotComputed store.old store.new s.now) }
    ensures store { IsStore store.new }
    ensures segment { IsSegment s.now }
{
    // It tells the proof that the counts are numbers of a machine.
    let _counts = store.counts();
    match s.only_leaf() {
        Some(leaf) => Ok(own(leaf, store)?),
        None => force(s, store),
    }
}

// Puts a leaf in the place of an entry, whose leaves it lets go. After want of memory it lets that leaf go instead.
fn put_leaf(
    alloc: Global,
    leaf: Leaf,
    at: usize,
    stack: &mut Stack,
    store: &mut Store,
) -> Result<(), NoMemory>
    requires within { at < length stack.old }
    requires lawful { IsLawfulLeaf store.old leaf }
    requires alone { IsAlone store.old leaf }
    requires held { (segment : SegmentView) → slice_get stack.old at ≡ Some segment
        → Holds store.old (both (named_by segment) (named_by_leaf leaf)) }
    ensures put { OnOk result (PutsLeaf store.old store.new stack.old stack.new at leaf) }
    ensures kept { OnErr result (stack.new ≡ stack.old) }
    ensures gone { OnErr result (LetsGo store.old store.new leaf) }
    ensures counts { store.new.counts ≡ store.old.counts }
    ensures store { IsStore store.new }
{
    let range = leaf_interval(&leaf, store);
    let Ok(segment) = Segment::of_leaf(alloc, leaf.copy(), range) else {
        let_go(leaf, store);
        return Err(NoMemory);
    };
    stack.replace(at, segment).release(store);
    Ok(())
}

// Lets go of a leaf that alone holds its owner, with the owner's cells.
fn let_go(leaf: Leaf, store: &mut Store)
    requires { IsAlone store.old leaf }
    ensures gone { LetsGo store.old store.new leaf }
    ensures counts { store.new.counts ≡ store.old.counts }
    ensures store { IsStore store.new }
{
    // It tells the proof that the store is one.
    let _counts = store.counts();
    if let Leaf::Stored { owner, .. } = leaf {
        store.release(owner);
    }
}
