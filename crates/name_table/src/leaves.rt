//! The leaves that names keep, and those that they let go.

ghost use Rattle.std.specs.Prelude.{◌≡◌, ◌↔◌, IsTrue, IfOk, IfErr};
ghost use Rattle.array_store.specs.Stores.{IsStore};
ghost use Rattle.array_store.specs.Counting.{Costs};
ghost use Rattle.array_store.specs.Follows.{Follows, Holds, none};
ghost use Rattle.drag_along.specs.Nodes.{named_by_leaf};
ghost use Rattle.drag_along.specs.Lawful.{IsLawfulLeaf};
ghost use Rattle.drag_along.specs.Views.{StandsForArray};
ghost use Rattle.e_machine.specs.Forced.{named_by_answer};
ghost use Rattle.leaf_names.specs.Variables.{array_of, named_by_option, FillsOwner};
ghost use Rattle.name_table.specs.Names.{elements_of, IsPut, IsSetFault};

use array_store::{BeginFault, Store};
use drag_along::Leaf;
use e_machine::own;

// A leaf that fills its owner as it is, any other as its copy in a new owner. The given one is let go where it isn't
// answered.
pub(crate) fn fitted(leaf: Leaf, store: &mut Store) -> Result<Leaf, BeginFault>
    requires lawful { IsLawfulLeaf store.old leaf }
    requires held { Holds store.old (named_by_leaf leaf) }
    ensures put { IfOk result (IsPut store.old store.new leaf) }
    ensures stands { IfOk result (λ put. StandsForArray store.new put (array_of store.old leaf)) }
    ensures fills { IfOk result (FillsOwner store.new) }
    ensures follows { Follows store.old store.new (named_by_leaf leaf) (named_by_answer result) }
    ensures refused { IfErr result (IsSetFault store.old store.new leaf) }
    ensures free { FillsOwner store.old leaf → store.new.counts ≡ store.old.counts }
    ensures costs { Costs store.old store.new (elements_of leaf) (elements_of leaf) 0 }
    ensures store { IsStore store.new }
{
    // These tell the proof that the store is one, and the leaf's descriptor.
    let _counts = store.counts();
    let _size = leaf.desc().size();
    if fills_owner(&leaf, store) {
        return Ok(leaf);
    }
    let copy = own(&leaf, store);
    leaf.release(store);
    copy
}

// Whether a leaf has at least as many elements as its owner has cells; one without an owner has.
fn fills_owner(leaf: &Leaf, store: &Store) -> bool
    requires { IsLawfulLeaf store.now leaf.now }
    ensures { IsTrue result ↔ FillsOwner store.now leaf.now }
{
    match leaf {
        Leaf::Stored { owner, desc, .. } => store.cells(*owner) <= desc.size(),
        Leaf::Gen { .. } => true,
    }
}

// Lets what a name was bound to go.
pub(crate) fn let_go(bound: Option<Leaf>, store: &mut Store)
    requires { Holds store.old (named_by_option bound) }
    ensures follows { Follows store.old store.new (named_by_option bound) none }
    ensures counts { store.new.counts ≡ store.old.counts }
    ensures store { IsStore store.new }
{
    // It tells the proof that the store is one.
    let _counts = store.counts();
    if let Some(leaf) = bound {
        leaf.release(store);
    }
}
