//! Selections from pending expressions.

ghost use Rattle.std.specs.Prelude.{◌≡◌, ℕ, false, List, [], ◌∷◌, Some};
ghost use Rattle.array_store.specs.Stores.{StoreView};
ghost use Rattle.array_desc.specs.Desc.{IsDesc};
ghost use Rattle.drag_along.specs.Nodes.{leaf_desc, leaf_shape, AllLeaves, functions_in, stored_in, pending_after};
ghost use Rattle.drag_along.specs.Segments.{IsSegment, named_by};
ghost use Rattle.drag_along.specs.Meaning.{entry};
ghost use Rattle.drag_along.specs.Lawful.{IsLawful};
ghost use Rattle.beating.specs.Selecting.{Fits, selected_shape, selected_meaning, SelectsBy, SelectsLeaf, SelectsNodes};

use crate::selections::Selection;
use crate::subscripts::select_items;
use apl_base::Shape;
use array_desc::Desc;
use drag_along::{Leaf, Node, Segment};

/// Selects from a pending expression that can't fail: the descriptors of all its leaves are changed, so that it means
/// the selection of what it meant. No element is computed or read, and no memory is taken.
pub fn select(s: &mut Segment, by: &Selection)
    requires safe { s.old.may_fail ≡ false }
    requires fits { Fits by.now s.old.shape }
    ensures shape { s.new.shape ≡ selected_shape by.now s.old.shape }
    ensures kind { s.new.kind ≡ s.old.kind }
    ensures nodes { SelectsNodes by.now s.old.nodes s.new.nodes }
    ensures range { s.new.range ≡ s.old.range }
    ensures safe { s.new.may_fail ≡ false }
    ensures segment { IsSegment s.new }
    ensures lawful { (store : StoreView) → IsLawful store s.old → IsLawful store s.new }
    ensures meaning { (store : StoreView) → IsLawful store s.old
        → entry store s.new ≡ selected_meaning by.now (entry store s.old) }
    ensures leaves { (key : ℕ) → named_by s.new key ≡ named_by s.old key }
    ensures functions { functions_in s.new.nodes ≡ functions_in s.old.nodes }
    ensures stored { stored_in s.new.nodes ≡ stored_in s.old.nodes }
{
    select_leaves(&mut s.nodes, by);
    s.shape = shape_of(&s.nodes);
}

// Selects from each leaf among the nodes.
fn select_leaves(nodes: &mut Vec<Node>, by: &Selection)
    requires lawful { AllLeaves (λ leaf. IsDesc (leaf_desc leaf)) nodes.old.items }
    requires fits { AllLeaves (λ leaf. Fits by.now (leaf_shape leaf)) nodes.old.items }
    ensures nodes { SelectsNodes by.now nodes.old.items nodes.new.items }
    ensures lawful { AllLeaves (λ leaf. IsDesc (leaf_desc leaf)) nodes.new.items }
{
    for at in 0..nodes.len() {
        select_node(&mut nodes[at], by);
    }
}

// Selects from a node that is a leaf.
fn select_node(node: &mut Node, by: &Selection)
    requires lawful { AllLeaves (λ leaf. IsDesc (leaf_desc leaf)) (node.old ∷ []) }
    requires fits { AllLeaves (λ leaf. Fits by.now (leaf_shape leaf)) (node.old ∷ []) }
    ensures nodes { SelectsNodes by.now (node.old ∷ []) (node.new ∷ []) }
    ensures lawful { AllLeaves (λ leaf. IsDesc (leaf_desc leaf)) (node.new ∷ []) }
{
    match node {
        Node::Operand { leaf } => select_leaf(leaf, by),
        Node::One { .. } | Node::Two { .. } => {}
    }
}

// Selects from a leaf: its descriptor is changed.
fn select_leaf(leaf: &mut Leaf, by: &Selection)
    requires lawful { IsDesc (leaf_desc leaf.old) }
    requires fits { Fits by.now (leaf_shape leaf.old) }
    ensures leaf { SelectsLeaf by.now leaf.old leaf.new }
    ensures lawful { IsDesc (leaf_desc leaf.new) }
{
    match leaf {
        Leaf::Stored { desc, .. } => select_desc(desc, by),
        Leaf::Gen { desc, .. } => select_desc(desc, by),
    }
}

// Selects from a descriptor.
fn select_desc(desc: &mut Desc, by: &Selection)
    requires lawful { IsDesc desc.old }
    requires fits { Fits by.now desc.old.shape }
    ensures selects { SelectsBy by.now desc.old desc.new }
    ensures lawful { IsDesc desc.new }
{
    match by {
        Selection::Take { counts } => desc.take(counts.as_slice()),
        Selection::Skip { counts } => desc.skip(counts.as_slice()),
        Selection::Reverse { axis } => desc.reverse(*axis),
        Selection::Transpose { axes } => desc.transpose(axes.as_slice()),
        Selection::Index { items } => select_items(desc, items.as_slice()),
        Selection::Extend { to } => desc.extend(to),
        Selection::OuterLeft { right } => desc.outer_left(right),
        Selection::OuterRight { left } => desc.outer_right(left),
    }
}

// The shape of the first node, which is a leaf.
fn shape_of(nodes: &[Node]) -> Shape
    requires { pending_after nodes.now 0 ≡ Some 1 }
    ensures { (ns : List ℕ) → AllLeaves (λ leaf. leaf_shape leaf ≡ ns) nodes.now
        → result ≡ ns }
{
    match &nodes[0] {
        Node::Operand { leaf } => leaf.desc().shape.copy(),
        Node::One { .. } | Node::Two { .. } => unreachable!(),
    }
}
