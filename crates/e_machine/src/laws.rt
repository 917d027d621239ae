//! What forcing and copying leave of other pending expressions.

ghost use Rattle.std.specs.Prelude.{◌≡◌, IfOk, IfErr};
ghost use Rattle.std.specs.Option.{ForSome};
ghost use Rattle.array_store.specs.Follows.{Holds};
ghost use Rattle.drag_along.specs.Segments.{named_by};
ghost use Rattle.drag_along.specs.Meaning.{entry};
ghost use Rattle.drag_along.specs.Lawful.{IsLawful, IsLawfulLeaf};
ghost use Rattle.drag_along.specs.Holding.{MayBeHeld};
ghost use Rattle.drag_along.specs.Views.{only_leaf};
ghost use Rattle.e_machine.specs.Forced.{IsForceFault, IsCopyFault};

use crate::copies::own;
use crate::faults::ForceFault;
use crate::forcing::force;
use array_store::{BeginFault, Store};
use drag_along::{Leaf, Segment};

/// `force`, beside another pending expression whose leaves are held. Whatever is answered, that one is lawful as
/// before, means what it meant, and its leaves are held.
pub fn force_beside(s: &Segment, other: &Segment, store: &mut Store) -> Result<Leaf, ForceFault>
    requires lawful { IsLawful store.old s.now }
    requires holders { ForSome (only_leaf s.now.nodes) (MayBeHeld store.old u128.MAX) }
    requires other { IsLawful store.old other.now }
    requires held { Holds store.old (named_by other.now) }
    ensures other { IsLawful store.new other.now }
    ensures meaning { entry store.new other.now ≡ entry store.old other.now }
    ensures held { Holds store.new (named_by other.now) }
    ensures answer { IfOk result (IsLawfulLeaf store.new) }
    ensures refused { IfErr result (IsForceFault store.old store.new s.now) }
{
    force(s, store)
}

/// `own`, beside a pending expression whose leaves are held. Whatever is answered, that one is lawful as before, means
/// what it meant, and its leaves are held.
pub fn own_beside(leaf: &Leaf, other: &Segment, store: &mut Store) -> Result<Leaf, BeginFault>
    requires lawful { IsLawfulLeaf store.old leaf.now }
    requires other { IsLawful store.old other.now }
    requires held { Holds store.old (named_by other.now) }
    ensures other { IsLawful store.new other.now }
    ensures meaning { entry store.new other.now ≡ entry store.old other.now }
    ensures held { Holds store.new (named_by other.now) }
    ensures answer { IfOk result (IsLawfulLeaf store.new) }
    ensures refused { IfErr result (IsCopyFault store.old store.new leaf.now) }
{
    own(leaf, store)
}
