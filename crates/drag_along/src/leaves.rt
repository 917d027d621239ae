//! Leaves: the operands of pending expressions.

ghost use Rattle.std.specs.Prelude.{◌≡◌, ℕ, ◌<◌, ◌≤◌, ◌↔◌, IsTrue, List};
ghost use Rattle.apl_base.specs.Array.{IsIndex};
ghost use Rattle.apl_base.specs.Interval.{InInterval, IsInterval};
ghost use Rattle.array_desc.specs.Desc.{IsDesc};
ghost use Rattle.array_store.specs.Stores.{IsStore};
ghost use Rattle.array_store.specs.Follows.{Follows, Holds, none};
ghost use Rattle.drag_along.specs.Nodes.{leaf_desc, leaf_kind, leaf_shape, named_by_leaf};
ghost use Rattle.drag_along.specs.Meaning.{leaf_array};
ghost use Rattle.drag_along.specs.Lawful.{IsLawfulLeaf, IsLeafInterval, LeafWithin};
ghost use Rattle.drag_along.specs.Views.{IsWholeView, StandsForArray};
ghost use Rattle.drag_along.specs.Holding.{MayBeHeld, HeldOnceMore};

use apl_base::{Interval, Kind, Shape};
use array_desc::Desc;
use array_store::{OwnerId, Store};

/// An operand: cells of an owner, read through a descriptor, or the numbers of a descriptor themselves.
#[derive(Drop)]
pub enum Leaf {
    /// The cells at the descriptor's numbers.
    Stored {
        owner: OwnerId,
        desc: Desc,
        kind: Kind,
    },
    /// The descriptor's numbers.
    Gen {
        desc: Desc,
        kind: Kind,
    },
}

impl Leaf {
    /// The same leaf again. The caller holds the owner once more. It takes no memory.
    pub fn copy(&self) -> Leaf
        ensures same { result ≡ self.now }
        ensures desc { IsDesc (leaf_desc self.now) }
    {
        match self {
            Leaf::Stored { owner, desc, kind } => Leaf::Stored {
                owner: *owner,
                desc: desc.copy(),
                kind: *kind,
            },
            Leaf::Gen { desc, kind } => Leaf::Gen {
                desc: desc.copy(),
                kind: *kind,
            },
        }
    }

    /// The same leaf again, whose owner, where it names one, is held once more. It takes no memory.
    pub fn held(&self, store: &mut Store) -> Leaf
        requires lawful { IsLawfulLeaf store.old self.now }
        requires holders { MayBeHeld store.old u128.MAX self.now }
        ensures same { result ≡ self.now }
        ensures held { HeldOnceMore store.old store.new self.now }
        ensures stands { StandsForArray store.new result
            (leaf_array store.old (leaf_shape self.now) self.now) }
        ensures follows { Follows store.old store.new none (named_by_leaf self.now) }
        ensures store { IsStore store.new }
    {
        // It tells the proof that the store is one.
        let _counts = store.counts();
        if let Leaf::Stored { owner, .. } = self {
            store.hold(*owner);
        }
        self.copy()
    }

    /// Lets the leaf go. The owner that it names has a holder less, and is freed with its last one.
    pub fn release(self, store: &mut Store)
        requires { Holds store.old (named_by_leaf self) }
        ensures follows { Follows store.old store.new (named_by_leaf self) none }
        ensures counts { store.new.counts ≡ store.old.counts }
        ensures live { store.new.live ≤ store.old.live }
        ensures store { IsStore store.new }
    {
        // It tells the proof that the store is one.
        let _counts = store.counts();
        if let Leaf::Stored { owner, .. } = self {
            store.release(owner);
        }
    }

    /// What its elements are.
    pub fn kind(&self) -> Kind
        ensures { result ≡ leaf_kind self.now }
    {
        match self {
            Leaf::Stored { kind, .. } | Leaf::Gen { kind, .. } => *kind,
        }
    }

    /// Whether it names an owner.
    pub fn names(&self, owner: OwnerId) -> bool
        ensures { IsTrue result ↔ (0 < named_by_leaf self.now owner) }
    {
        match self {
            Leaf::Stored { owner: named, .. } => *named == owner,
            Leaf::Gen { .. } => false,
        }
    }

    /// How an index leads to its elements.
    pub fn desc(&self) -> &Desc
        ensures { result.now ≡ leaf_desc self.now }
    {
        match self {
            Leaf::Stored { desc, .. } | Leaf::Gen { desc, .. } => desc,
        }
    }
}

/// An interval in which the leaf's elements lie: the one kept for its owner, or that from the least to the
/// greatest of its numbers. It takes no memory.
pub fn leaf_interval(leaf: &Leaf, store: &Store) -> Interval
    requires { IsLawfulLeaf store.now leaf.now }
    ensures value { IsLeafInterval store.now leaf.now result }
    ensures interval { IsInterval result }
    ensures within { LeafWithin store.now leaf.now result }
{
    match leaf {
        Leaf::Stored { owner, .. } => store.interval(*owner),
        Leaf::Gen { desc, .. } => desc.least_and_greatest(),
    }
}

/// The leaf that reads all cells of an owner, in row-major order, as an array of this shape and kind. It takes no
/// memory.
pub fn whole_view(owner: OwnerId, shape: &Shape, kind: Kind) -> Leaf
    ensures { IsWholeView owner shape.now kind result }
{
    Leaf::Stored {
        owner,
        desc: Desc::whole(shape),
        kind,
    }
}
