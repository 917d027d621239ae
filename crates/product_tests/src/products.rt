//! Products by name.

ghost use Rattle.std.specs.Prelude.{IfOk};
ghost use Rattle.drag_along.specs.Lawful.{IsLawfulLeaf};

use apl_base::Dya;
use apl_model::Axis;
use array_store::Store;
use drag_along::Leaf;
use made_leaf::MadeFault;
use product_fns::{inner, reduce};

/// A reduction of the right argument, or an inner product.
#[derive(Clone, Copy, Debug)]
pub enum Product {
    Reduce(Dya, Axis),
    Inner(Dya, Dya),
}

/// What it answers.
#[tactic(auto, using(crate::proofs::ProductLemmas::made_lawful))]
pub fn answer_of(of: Product, a: &Leaf, b: &Leaf, store: &mut Store) -> Result<Leaf, MadeFault>
    requires a { IsLawfulLeaf store.old a.now }
    requires b { IsLawfulLeaf store.old b.now }
    ensures { IfOk result (IsLawfulLeaf store.new) }
{
    match of {
        Product::Reduce(f, axis) => reduce(f, axis, b, store),
        Product::Inner(f, g) => inner(f, g, a, b, store),
    }
}
