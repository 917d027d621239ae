//! Progressions, and which vectors are one.

ghost use Rattle.std.specs.Prelude.{◌≡◌, ◌*◌, ◌^◌, ◌<◌, false, length, IfSome};
ghost use Rattle.apl_base.specs.declared.cells.Kind.TheVariants.{Num};
ghost use Rattle.apl_base.specs.Array.{size_of};
ghost use Rattle.apl_base.specs.Number.{IsNumber};
ghost use Rattle.array_store.specs.Counting.{OnlyFetched, after_fetches};
ghost use Rattle.array_store.specs.Stores.{cells_of};
ghost use Rattle.drag_along.specs.declared.leaves.Leaf.TheVariants.{Stored};
ghost use Rattle.drag_along.specs.Nodes.{leaf_kind, leaf_shape, stored_of_leaf};
ghost use Rattle.drag_along.specs.Meaning.{leaf_array};
ghost use Rattle.drag_along.specs.Lawful.{IsLawfulLeaf, LiesIn};
ghost use Rattle.beating.specs.Positions.{ArePositions};
ghost use Rattle.beating.specs.Runs.{IsRunOf, IsRunIfAny, OneRun, numbers_of, vector_cell};

use apl_base::Cell;
use array_desc::Desc;
use array_store::{OwnerId, Store};
use drag_along::Leaf;

/// An arithmetic progression: `n` numbers, from `from` on and `step` apart.
#[derive(Clone, Copy, Debug, PartialEq, Eq)]
pub struct Run {
    pub from: Cell,
    pub step: Cell,
    pub n: u64,
}

/// The progression that a vector of numbers is, or none where it is none. Each stored element is fetched at most
/// once, and no other. It takes no memory.
pub fn as_progression(leaf: &Leaf, store: &mut Store) -> Option<Run>
    requires lawful { IsLawfulLeaf store.old leaf.now }
    requires numbers { leaf_kind leaf.now ≡ Num }
    requires vector { length (leaf_shape leaf.now) ≡ 1 }
    ensures run { IsRunIfAny (leaf_array store.old (leaf_shape leaf.now) leaf.now).cells result }
    ensures positions { IfSome result (λ run. ArePositions run false) }
    ensures fetched { OnlyFetched store.old store.new
        (size_of (leaf_shape leaf.now) * stored_of_leaf leaf.now) }
{
    match leaf {
        Leaf::Gen { desc, .. } => Some(run_of_numbers(desc)),
        Leaf::Stored { owner, desc, .. } => run_of_cells(*owner, desc, store),
    }
}

// The progression that the numbers of a vector's descriptor are.
fn run_of_numbers(desc: &Desc) -> Run
    requires { length desc.now.shape ≡ 1 }
    ensures run { IsRunOf (numbers_of desc.now) result }
    ensures positions { ArePositions result false }
{
    Run {
        from: desc.base,
        step: desc.strides.as_slice()[0],
        n: desc.size(),
    }
}

// The progression that the cells at a vector's places are. They are fetched in order, up to the first one that breaks
// it.
fn run_of_cells(owner: OwnerId, desc: &Desc, store: &mut Store) -> Option<Run>
    requires lies { LiesIn store.old owner desc.now Num }
    requires vector { length desc.now.shape ≡ 1 }
    ensures run { IsRunIfAny
        (leaf_array store.old desc.now.shape (Stored owner desc.now Num)).cells result }
    ensures positions { IfSome result (λ run. ArePositions run false) }
    ensures fetched { OnlyFetched store.old store.new (size_of desc.now.shape) }
{
    // Both tell the proof that what they count fits its type.
    let _cells = store.cells(owner);
    let _counts = store.counts();
    let n = desc.size();
    if n == 0 {
        return Some(Run {
            from: 0,
            step: 0,
            n,
        });
    }
    let from = cell_at(owner, desc, 0, store);
    if n == 1 {
        return Some(Run { from, step: 0, n });
    }
    let mut last = cell_at(owner, desc, 1, store);
    let step = last - from;
    for j in 2..n {
        let next = cell_at(owner, desc, j, store);
        if next - last != step {
            return None;
        }
        last = next;
    }
    Some(Run { from, step, n })
}

// The cell at a place of a vector.
fn cell_at(owner: OwnerId, desc: &Desc, j: u64, store: &mut Store) -> Cell
    requires lies { LiesIn store.old owner desc.now Num }
    requires vector { length desc.now.shape ≡ 1 }
    requires place { j < size_of desc.now.shape }
    requires few { length (cells_of store.old owner) < 2 ^ 64 }
    ensures value { result ≡ vector_cell store.old owner desc.now j }
    ensures number { IsNumber result }
    ensures counted { store.new ≡ after_fetches store.old 1 }
{
    store.fetch(owner, desc.number_at(&[j]) as u64)
}

/// Numbers are a progression in one way only.
pub fn one_progression()
    ensures { OneRun }
{}
