//! What the functions ask of their arguments before they read them.
ghost use Rattle.std.specs.Prelude.{◌≡◌, ◌^◌, ◌≤◌, ◌==◌, ◌&&◌, nat_le, ℤ, length};
ghost use Rattle.apl_base.specs.Array.{IsShape};
ghost use Rattle.array_desc.specs.Desc.{IsDesc};
ghost use Rattle.array_store.specs.Stores.{StoreView};
ghost use Rattle.drag_along.specs.Nodes.{leaf_desc, leaf_shape};
ghost use Rattle.apl_model.specs.Whole.{is_text as is_text_array};
ghost use Rattle.leaf_names.specs.Variables.{array_of};
ghost use Rattle.made_fns.specs.Answers.{elements_in};

use apl_base::{Kind, Shape};
use drag_along::Leaf;

/// How many elements a leaf has.
pub fn elements(leaf: &Leaf) -> u64
    ensures value { result ≡ elements_in leaf.now }
    ensures few { result ≤ 2 ^ 40 }
    ensures lawful { IsDesc (leaf_desc leaf.now) }
{
    leaf.desc().size()
}

/// How many axes a leaf has.
pub fn rank(leaf: &Leaf) -> usize
    ensures value { result ≡ length (leaf_shape leaf.now) }
    ensures few { result ≤ 8 }
    ensures lawful { IsDesc (leaf_desc leaf.now) }
{
    leaf.desc().shape.rank()
}

/// Whether a leaf has characters, and one at least.
pub fn is_text(leaf: &Leaf) -> bool
    ensures { (store : StoreView) → result ≡ is_text_array (array_of store leaf.now) }
{
    leaf.kind() == Kind::Char && elements(leaf) > 0
}

/// Whether a leaf has one element, and one axis at most.
pub fn is_extendable(leaf: &Leaf) -> bool
    ensures value { result
        ≡ (elements_in leaf.now == 1) && nat_le (length (leaf_shape leaf.now)) 1 }
    ensures lawful { IsDesc (leaf_desc leaf.now) }
{
    elements(leaf) == 1 && rank(leaf) <= 1
}

/// The shape of a leaf.
pub fn shape(leaf: &Leaf) -> &Shape
    ensures { result.now ≡ leaf_shape leaf.now }
{
    &leaf.desc().shape
}

/// The lengths of a leaf's axes.
pub fn lengths(leaf: &Leaf) -> &[u64]
    ensures { result.now ≡ leaf_shape leaf.now }
{
    leaf.desc().shape.lengths()
}
