//! Segments: pending expressions.

ghost use Rattle.std.specs.Prelude.{◌≡◌, ℕ, ◌+◌, ◌<◌, ◌≤◌, ◌↔◌, IsTrue, IfOk};
ghost use Rattle.apl_base.specs.Interval.{IsInterval};
ghost use Rattle.apl_base.specs.Scalar.{scalar1, scalar2};
ghost use Rattle.value_range.specs.Interval.{ranged1, ranged2};
ghost use Rattle.value_range.specs.Sound.{IsSound1, IsSound2};
ghost use Rattle.std.specs.Option.{option_copied};
ghost use Rattle.array_store.specs.Stores.{StoreView, IsStore};
ghost use Rattle.array_store.specs.Follows.{Follows, Holds, both, none};
ghost use Rattle.drag_along.specs.Nodes.{functions_in, leaf_shape, named_by_leaf, named_by_nodes};
ghost use Rattle.drag_along.specs.Segments.{IsSegment, named_by, side_of, leaf_segment, joined1, joined2, may_fail_at};
ghost use Rattle.drag_along.specs.Meaning.{Means, leaf_array, combined1, combined2, entry};
ghost use Rattle.drag_along.specs.Lawful.{IsLawfulLeaf, LeafWithin, IsLawful};
ghost use Rattle.drag_along.specs.Views.{only_leaf};

use crate::leaves::Leaf;
use crate::nodes::Node;
use apl_base::{Dya, Interval, Kind, Mon, NoMemory, Place, Shape};
use array_store::{OwnerId, Store};
use std::alloc::Global;
use std::marker::Model;
use value_range::{Ranged, Side, range1, range2};

/// A pending expression: leaves of one shape and at most 64 scalar functions in postfix order, an interval of its
/// values, and whether a function in it may be undefined at an element.
#[derive(Drop)]
pub struct Segment {
    pub shape: Shape,
    pub kind: Kind,
    pub nodes: Vec<Node>,
    pub range: Interval,
    pub may_fail: bool,
}

impl Model for Segment {
    ghost use Rattle.drag_along.specs.Segments.{SegmentView, IsSegment};

    ghost Value = { SegmentView };

    ghost view = { λ s. record {
      shape = s.shape;
      kind = s.kind;
      nodes = s.nodes.items;
      range = s.range;
      may_fail = s.may_fail;
    } };

    ghost invariant = { λ s. IsSegment (record {
      shape = s.shape;
      kind = s.kind;
      nodes = s.nodes.items;
      range = s.range;
      may_fail = s.may_fail;
    }) };
}

impl Segment {
    /// The segment of one leaf, whose elements lie in the range.
    pub fn of_leaf(alloc: Global, leaf: Leaf, range: Interval) -> Result<Segment, NoMemory>
        requires { IsInterval range }
        ensures exact { IfOk result (λ segment. segment ≡ leaf_segment leaf range) }
        ensures segment { IfOk result (λ segment. IsSegment segment) }
        ensures lawful { IfOk result (λ segment. (store : StoreView) → IsLawfulLeaf store leaf
            → LeafWithin store leaf range → IsLawful store segment) }
        ensures meaning { IfOk result (λ segment. (store : StoreView)
            → entry store segment ≡ Means (leaf_array store (leaf_shape leaf) leaf)) }
        ensures leaves { IfOk result (λ segment. (key : ℕ)
            → named_by segment key ≡ named_by_leaf leaf key) }
    {
        let shape = leaf.desc().shape.copy();
        let kind = leaf.kind();
        let _size = leaf.desc().size();
        // Room for a function of two such operands.
        let mut nodes = Vec::with_capacity(alloc, 3)?;
        nodes.push(Node::Operand { leaf })?;
        Ok(Segment {
            shape,
            kind,
            nodes,
            range,
            may_fail: false,
        })
    }

    /// The leaf that is all of it, where one is.
    pub fn only_leaf(&self) -> Option<&Leaf>
        ensures found { option_copied result ≡ only_leaf self.now.nodes }
        ensures segment { IsSegment self.now }
    {
        match self.nodes.as_slice() {
            [Node::Operand { leaf }] => Some(leaf),
            _ => None,
        }
    }

    /// Lets the segment go. Each owner has a holder less for each leaf that names it, and is freed with its last one.
    pub fn release(self, store: &mut Store)
        requires { Holds store.old (named_by self) }
        ensures follows { Follows store.old store.new (named_by self) none }
        ensures counts { store.new.counts ≡ store.old.counts }
        ensures live { store.new.live ≤ store.old.live }
        ensures store { IsStore store.new }
    {
        release_nodes(self.nodes, store);
    }

    /// How many of its nodes are functions.
    pub fn functions(&self) -> usize
        ensures value { result ≡ functions_in self.now.nodes }
        ensures segment { IsSegment self.now }
    {
        let mut count = 0;
        for node in &self.nodes {
            if let Node::Operand { .. } = node {} else {
                count += 1;
            }
        }
        count
    }

    /// Whether one of its leaves names an owner.
    pub fn names(&self, owner: OwnerId) -> bool
        ensures value { IsTrue result ↔ (0 < named_by self.now owner) }
        ensures segment { IsSegment self.now }
    {
        for node in &self.nodes {
            if let Node::Operand { leaf } = node
                && leaf.names(owner)
            {
                return true;
            }
        }
        false
    }
}

// Lets the leaves among the nodes go.
fn release_nodes(nodes: Vec<Node>, store: &mut Store)
    requires { Holds store.old (named_by_nodes nodes.items) }
    ensures follows { Follows store.old store.new (named_by_nodes nodes.items) none }
    ensures counts { store.new.counts ≡ store.old.counts }
    ensures live { store.new.live ≤ store.old.live }
    ensures store { IsStore store.new }
{
    // It tells the proof that the store is one.
    let _counts = store.counts();
    for node in nodes {
        if let Node::Operand { leaf } = node {
            leaf.release(store);
        }
    }
}

/// `f B`, deferred: no element is computed.
pub fn join1(right: Segment, f: Mon, place: Place) -> Result<Segment, NoMemory>
    requires { functions_in right.nodes < 64 }
    ensures exact { IfOk result (λ joined. joined ≡ joined1 f place right) }
    ensures segment { IfOk result (λ joined. IsSegment joined) }
    ensures lawful { IfOk result (λ joined. (store : StoreView)
        → IsLawful store right → IsLawful store joined) }
    ensures meaning { IfOk result (λ joined. (store : StoreView)
        → entry store joined ≡ combined1 f place (entry store right)) }
    ensures leaves { IfOk result (λ joined. (key : ℕ)
        → named_by joined key ≡ named_by right key) }
    ensures functions { IfOk result (λ joined.
        functions_in joined.nodes ≡ functions_in right.nodes + 1) }
{
    with_one(right, f, place)
}

// The segment with a function of one argument more.
fn with_one(right: Segment, f: Mon, place: Place) -> Result<Segment, NoMemory>
    requires { functions_in right.nodes < 64 }
    ensures exact { IfOk result (λ joined. joined ≡ joined1 f place right) }
    ensures segment { IfOk result (λ joined. IsSegment joined) }
    ensures right { IsSegment right }
    ensures sound { IsSound1 (scalar1 f) (side_of right) (ranged1 f (side_of right)) }
{
    let known = range1(
        f,
        Side {
            kind: right.kind,
            interval: right.range,
        },
    );
    let may_fail = right.may_fail || may_fail_at(&right.shape, known);
    let Segment {
        shape,
        mut nodes,
        ..
    } = right;
    nodes.push(Node::One { f, place })?;
    Ok(Segment {
        shape,
        kind: Kind::Num,
        nodes,
        range: known.range,
        may_fail,
    })
}

/// `A f B`, deferred: no element is computed.
pub fn join2(right: Segment, left: Segment, f: Dya, place: Place) -> Result<Segment, NoMemory>
    requires shapes { left.shape ≡ right.shape }
    requires few { functions_in right.nodes + functions_in left.nodes < 64 }
    ensures exact { IfOk result (λ joined. joined ≡ joined2 f place left right) }
    ensures segment { IfOk result (λ joined. IsSegment joined) }
    ensures lawful { IfOk result (λ joined. (store : StoreView)
        → IsLawful store right → IsLawful store left → IsLawful store joined) }
    ensures meaning { IfOk result (λ joined. (store : StoreView)
        → entry store joined ≡ combined2 f place (entry store left) (entry store right)) }
    ensures leaves { IfOk result (λ joined. (key : ℕ)
        → named_by joined key ≡ both (named_by right) (named_by left) key) }
    ensures functions { IfOk result (λ joined.
        functions_in joined.nodes ≡ functions_in right.nodes + functions_in left.nodes + 1) }
{
    with_two(right, left, f, place)
}

// The two segments one behind the other, with a function of two arguments more.
fn with_two(right: Segment, left: Segment, f: Dya, place: Place) -> Result<Segment, NoMemory>
    requires shapes { left.shape ≡ right.shape }
    requires few { functions_in right.nodes + functions_in left.nodes < 64 }
    ensures exact { IfOk result (λ joined. joined ≡ joined2 f place left right) }
    ensures segment { IfOk result (λ joined. IsSegment joined) }
    ensures right { IsSegment right }
    ensures left { IsSegment left }
    ensures sound { IsSound2 (scalar2 f) (side_of left) (side_of right)
        (ranged2 f (side_of left) (side_of right)) }
{
    let known = range2(
        f,
        Side {
            kind: left.kind,
            interval: left.range,
        },
        Side {
            kind: right.kind,
            interval: right.range,
        },
    );
    let may_fail = right.may_fail || left.may_fail || may_fail_at(&right.shape, known);
    let Segment {
        shape,
        mut nodes,
        ..
    } = right;
    let Segment {
        nodes: mut others,
        ..
    } = left;
    nodes.append(&mut others)?;
    nodes.push(Node::Two { f, place })?;
    Ok(Segment {
        shape,
        kind: Kind::Num,
        nodes,
        range: known.range,
        may_fail,
    })
}

// Whether a function may fail: where there is an element, and its rule doesn't find it safe.
fn may_fail_at(shape: &Shape, known: Ranged) -> bool
    ensures { result ≡ may_fail_at shape.now known }
{
    shape.size() != 0 && !known.safe
}
