//! Pending expressions made into leaves.

ghost use Rattle.std.specs.Prelude.{◌≡◌, ℕ, ◌≤◌, ◌∷◌, [], None, false, IfOk, IfErr, OnOk};
ghost use Rattle.std.specs.Option.{ForSome};
ghost use Rattle.array_store.specs.Stores.{IsStore, HasRoom};
ghost use Rattle.array_store.specs.Follows.{Follows, none};
ghost use Rattle.drag_along.specs.Nodes.{functions_in, node_place};
ghost use Rattle.drag_along.specs.Segments.{IsSegment};
ghost use Rattle.drag_along.specs.Lawful.{IsLawful, LeafWithin};
ghost use Rattle.drag_along.specs.Holding.{MayBeHeld};
ghost use Rattle.drag_along.specs.Views.{only_leaf};
ghost use Rattle.e_machine.specs.Forced.{HasRoomFor, IsForced, IsForceFault, elements_of, named_by_answer};

use crate::engine::compute;
use crate::faults::ForceFault;
use apl_base::{Kind, Place};
use array_store::Store;
use drag_along::{Leaf, Node, Segment, whole_view};

/// Computes a pending expression. One that is a leaf is answered as that leaf, with a holder more; any other is made
/// into a new owner. `WsFull` comes exactly where there is no room for its elements, before any is computed; `Fault`
/// exactly where there is room and a function is undefined at an element, with the place of the first such function
/// in postfix order.
pub fn force(s: &Segment, store: &mut Store) -> Result<Leaf, ForceFault>
    requires lawful { IsLawful store.old s.now }
    requires holders { ForSome (only_leaf s.now.nodes) (MayBeHeld store.old u128.MAX) }
    ensures forced { IfOk result (IsForced store.old store.new s.now) }
    ensures within { IfOk result (λ leaf. s.now.may_fail ≡ false
        → LeafWithin store.new leaf s.now.range) }
    ensures room { OnOk result (HasRoomFor store.old s.now) }
    ensures follows { Follows store.old store.new none (named_by_answer result) }
    ensures refused { IfErr result (IsForceFault store.old store.new s.now) }
    ensures store { IsStore store.new }
    ensures segment { IsSegment s.now }
{
    match s.only_leaf() {
        Some(leaf) => Ok(leaf.held(store)),
        None => computed(s, store),
    }
}

// The segment's elements, in a new owner.
fn computed(s: &Segment, store: &mut Store) -> Result<Leaf, ForceFault>
    requires lawful { IsLawful store.old s.now }
    requires many { only_leaf s.now.nodes ≡ None }
    ensures forced { IfOk result (IsForced store.old store.new s.now) }
    ensures room { OnOk result (HasRoom store.old (elements_of s.now)) }
    ensures follows { Follows store.old store.new none (named_by_answer result) }
    ensures refused { IfErr result (IsForceFault store.old store.new s.now) }
    ensures store { IsStore store.new }
{
    let _counts = store.counts();
    let mut cells = store.begin(s.shape.size())?;
    if let Some(failed) = compute(s, store, &mut cells)? {
        let place = place_of(&s.nodes[failed]);
        return Err(ForceFault::Fault { place });
    }
    let owner = store.make(cells, Kind::Num)?;
    Ok(whole_view(owner, &s.shape, Kind::Num))
}

// Where a function stands.
fn place_of(node: &Node) -> Place
    requires { functions_in (node.now ∷ []) ≡ 1 }
    ensures { result ≡ node_place node.now }
{
    match node {
        Node::Operand { .. } => unreachable!(),
        Node::One { place, .. } | Node::Two { place, .. } => *place,
    }
}
