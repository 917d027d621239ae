//! A name that is to be written in place.

ghost use Rattle.std.specs.Prelude.{◌≡◌, ◌⊎◌, ◌↔◌, ◌<◌, ℕ, ℤ, None, Some, IsTrue, IsSome, IfOk, IfErr, OnOk, OnErr, MatchOption};
ghost use Rattle.array_store.specs.Stores.{IsStore, holders_of};
ghost use Rattle.array_store.specs.Follows.{Follows, Holds, LeafCounts, both};
ghost use Rattle.drag_along.specs.declared.leaves.Leaf.{Leaf};
ghost use Rattle.drag_along.specs.Nodes.{named_by_leaf, leaf_shape};
ghost use Rattle.drag_along.specs.Lawful.{IsLawfulLeaf};
ghost use Rattle.drag_along.specs.Views.{FillsShape};
ghost use Rattle.value_stack.specs.Stacks.{named_on, entries, MayFail, Reads, IsLeastOrNone, IsLawfulStack};
ghost use Rattle.apl_model.specs.Environment.{look_up};
ghost use Rattle.leaf_names.specs.Variables.{named_by_names, AreLawfulNames, FillOwners, variables_of};
ghost use Rattle.e_machine.specs.Forced.{IsCopyFault};
ghost use Rattle.e_machine.specs.Refusals.{fault_of};
ghost use Rattle.alias_force.specs.Desk.{IsLawfulDesk};
ghost use Rattle.alias_force.specs.Moving.{StopsAt};
ghost use Rattle.alias_force.specs.Steps.{IsNoFault, ReadsAll};
ghost use Rattle.alias_force.specs.Writing.{reads, HasAlone, IsWritable, ClearsReaders, CopiesName, KeepsLeaf, GetsCopy, IsNotWritable};

use crate::holders::Holder;
use crate::moving::Which;
use crate::passes::move_where;
use apl_base::Name;
use array_store::{BeginFault, OwnerId, Store};
use drag_along::Leaf;
use e_machine::{ForceFault, own};
use std::alloc::Global;
use value_stack::Stack;

/// Makes the owner of a name free to be written, where no entry may fail. Every entry that reads it is forced or copied
/// into an owner of its own, on the whole stack. Then the name keeps its leaf where that reads all of its owner and
/// nothing else holds it; otherwise the name is bound to a copy in an owner of its own. What entries and names mean
/// stays, whatever is answered. `WsFull` is that of a force or copy that it makes.
pub fn before_write<H: Holder>(
    alloc: Global,
    holder: &mut H,
    stack: &mut Stack,
    store: &mut Store,
    name: &Name,
) -> Result<OwnerId, BeginFault>
    requires set { IsSome (look_up (H.names holder.old) name.now) }
    requires safe { IsLeastOrNone MayFail stack.old 0 None }
    requires lawful { IsLawfulStack store.old stack.old }
    requires lawful_names { AreLawfulNames store.old (H.names holder.old) }
    requires held { Holds store.old
        (both (named_on stack.old) (named_by_names (H.names holder.old))) }
    ensures writable { IfOk result
        (IsWritable store.new (H.names holder.new) stack.new name.now) }
    ensures exact { IfOk result (λ key. (leaf : Leaf)
        → look_up (H.names holder.old) name.now ≡ Some leaf
        → KeepsLeaf store.old store.new (H.names holder.old) (H.names holder.new) stack.old
        stack.new leaf key
        ⊎ GetsCopy store.old store.new (H.names holder.old) (H.names holder.new) stack.old
        stack.new name.now leaf key) }
    ensures refused { IfErr result (λ fault. (leaf : Leaf)
        → look_up (H.names holder.old) name.now ≡ Some leaf
        → IsNotWritable store.old store.new stack.old stack.new leaf fault) }
    ensures kept { OnErr result (H.names holder.new ≡ H.names holder.old) }
    ensures means { entries store.new stack.new ≡ entries store.old stack.old }
    ensures variables { (origin : ℤ)
        → variables_of store.new origin (H.names holder.new)
        ≡ variables_of store.old origin (H.names holder.old) }
    ensures safe { IsLeastOrNone MayFail stack.new 0 None }
    ensures lawful { IsLawfulStack store.new stack.new }
    ensures lawful_names { AreLawfulNames store.new (H.names holder.new) }
    ensures filling { FillOwners store.old (H.names holder.old)
        → FillOwners store.new (H.names holder.new) }
    ensures follows { Follows store.old store.new
        (both (named_on stack.old) (named_by_names (H.names holder.old)))
        (both (named_on stack.new) (named_by_names (H.names holder.new))) }
    ensures desk { (hand : LeafCounts)
        → IsLawfulDesk store.old (H.names holder.old) stack.old hand
        → IsLawfulDesk store.new (H.names holder.new) stack.new hand }
    ensures store { IsStore store.new }
{
    let Some(leaf) = holder.leaf_of(name) else {
        unreachable!()
    };
    if let Some(owner) = clear_readers(alloc, leaf, stack, store)? {
        return Ok(owner);
    }
    copy_name(holder, store, name)
}

// Gives each entry that reads a leaf's owner an owner of its own. Answers the leaf's owner where it may then be written.
fn clear_readers(
    alloc: Global,
    leaf: &Leaf,
    stack: &mut Stack,
    store: &mut Store,
) -> Result<Option<OwnerId>, BeginFault>
    requires leaf { IsLawfulLeaf store.old leaf.now }
    requires safe { IsLeastOrNone MayFail stack.old 0 None }
    requires lawful { IsLawfulStack store.old stack.old }
    requires held { Holds store.old (both (named_on stack.old) (named_by_leaf leaf.now)) }
    ensures clears { OnOk result
        (ClearsReaders store.old store.new stack.old stack.new leaf.now) }
    ensures found { IfOk result (λ found. MatchOption found
        ((key : ℕ) → ¬ (HasAlone store.old stack.old leaf.now key))
        (λ key. HasAlone store.old stack.old leaf.now key
        × FillsShape store.new key (leaf_shape leaf.now)
        × (holders_of store.new key ≡ 1)
        × IsLeastOrNone (Reads key) stack.new 0 None)) }
    ensures refused { IfErr result (λ fault.
        StopsAt (reads leaf.now) store.old store.new stack.old stack.new (fault_of fault)) }
    ensures means { entries store.new stack.new ≡ entries store.old stack.old }
    ensures safe { IsLeastOrNone MayFail stack.new 0 None }
    ensures lawful { IsLawfulStack store.new stack.new }
    ensures follows { Follows store.old store.new (named_on stack.old) (named_on stack.new) }
    ensures store { IsStore store.new }
{
    // It tells the proof that the store is one.
    let _counts = store.counts();
    let Leaf::Stored { owner, .. } = leaf else {
        return Ok(None);
    };
    let whole = reads_all(leaf, store);
    if let Err(fault) = move_where(alloc, &Which::Reading(*owner), stack, store) {
        return Err(begin_fault(fault));
    }
    if whole && is_held_once(*owner, store) {
        return Ok(Some(*owner));
    }
    Ok(None)
}

// Whether a leaf reads the cells of its owner in their order, and all of them.
fn reads_all(leaf: &Leaf, store: &Store) -> bool
    requires { IsLawfulLeaf store.now leaf.now }
    ensures { IsTrue result ↔ ReadsAll store.now leaf.now }
{
    match leaf {
        Leaf::Stored { owner, desc, .. } => desc.is_whole() && store.cells(*owner) == desc.size(),
        Leaf::Gen { .. } => false,
    }
}

// Whether one leaf alone holds an owner.
fn is_held_once(owner: OwnerId, store: &Store) -> bool
    requires { 0 < holders_of store.now owner }
    ensures { IsTrue result ↔ (holders_of store.now owner ≡ 1) }
{
    store.holders(owner) == 1
}

// The refusal of a force that can't fault.
fn begin_fault(fault: ForceFault) -> BeginFault
    requires { IsNoFault fault }
    ensures { fault_of result ≡ fault }
{
    match fault {
        ForceFault::Fault { .. } => unreachable!(),
        ForceFault::WsFull { live, asked } => BeginFault::WsFull { live, asked },
        ForceFault::NoMemory => BeginFault::NoMemory,
    }
}

// Binds a name to a copy of its leaf, in an owner of its own, and lets that leaf go.
fn copy_name<H: Holder>(
    holder: &mut H,
    store: &mut Store,
    name: &Name,
) -> Result<OwnerId, BeginFault>
    requires set { IsSome (look_up (H.names holder.old) name.now) }
    requires lawful { AreLawfulNames store.old (H.names holder.old) }
    requires held { Holds store.old (named_by_names (H.names holder.old)) }
    ensures copied { IfOk result (λ key. (leaf : Leaf)
        → look_up (H.names holder.old) name.now ≡ Some leaf
        → CopiesName store.old store.new (H.names holder.old) (H.names holder.new) name.now
        leaf key) }
    ensures free { IfOk result (λ key. holders_of store.old key ≡ 0) }
    ensures refused { IfErr result (λ fault. (leaf : Leaf)
        → look_up (H.names holder.old) name.now ≡ Some leaf
        → IsCopyFault store.old store.new leaf fault) }
    ensures kept { OnErr result (H.names holder.new ≡ H.names holder.old) }
    ensures variables { (origin : ℤ)
        → variables_of store.new origin (H.names holder.new)
        ≡ variables_of store.old origin (H.names holder.old) }
    ensures lawful { AreLawfulNames store.new (H.names holder.new) }
    ensures filling { FillOwners store.old (H.names holder.old)
        → FillOwners store.new (H.names holder.new) }
    ensures follows { Follows store.old store.new
        (named_by_names (H.names holder.old)) (named_by_names (H.names holder.new)) }
    ensures store { IsStore store.new }
{
    // It tells the proof that the counts are numbers of a machine.
    let _counts = store.counts();
    let Some(leaf) = holder.leaf_of(name) else {
        unreachable!()
    };
    let copy = own(leaf, store)?;
    let Leaf::Stored { owner, .. } = &copy else {
        unreachable!()
    };
    let owner = *owner;
    holder.give(name, copy).release(store);
    Ok(owner)
}
