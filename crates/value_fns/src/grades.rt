//! `⍋B` and `⍒B`: places in order.

ghost use Rattle.std.specs.Prelude.{◌≡◌};
ghost use Rattle.apl_base.specs.Array.{size_of};
ghost use Rattle.array_store.specs.Stores.{IsStore};
ghost use Rattle.drag_along.specs.Nodes.{leaf_shape};
ghost use Rattle.drag_along.specs.Lawful.{IsLawfulLeaf};
ghost use Rattle.apl_model_laws.specs.Lawful.{IsOrigin};
ghost use Rattle.leaf_names.specs.Variables.{array_of};
ghost use Rattle.made_leaf.specs.Made.{Fetched, IsMadeBy};
ghost use Rattle.apl_model.specs.Made as language;

use crate::kinds::is_text;
use crate::orders::order_cells;
use apl_base::{Cell, ErrorKind, Kind};
use array_store::Store;
use drag_along::Leaf;
use made_leaf::{MadeFault, make_leaf, read_all, room_for};

/// `⍋B`, and `⍒B` where it goes down: the places of B's elements, counted from the origin, in rising or falling order of
/// the elements; equal ones keep their order. RANK ERROR comes where B is no vector, and then DOMAIN ERROR where it has
/// characters. Each element is fetched once at most.
pub fn grade(b: &Leaf, down: bool, origin: Cell, store: &mut Store) -> Result<Leaf, MadeFault>
    requires right { IsLawfulLeaf store.old b.now }
    requires origin { IsOrigin origin }
    ensures made { IsMadeBy (Fetched store.old (size_of (leaf_shape b.now))) store.old store.new
        (language.grade down origin (array_of store.old b.now)) result }
    ensures store { IsStore store.new }
{
    // It tells the proof that the store is one.
    let _counts = store.counts();
    let count = b.desc().size();
    if b.desc().shape.rank() != 1 {
        return Err(MadeFault::Error {
            kind: ErrorKind::Rank,
        });
    }
    if is_text(b.kind(), count) {
        return Err(MadeFault::Error {
            kind: ErrorKind::Domain,
        });
    }
    let mut cells = room_for(count, store)?;
    read_all(b, store, &mut cells);
    let alloc = b.desc().shape.allocator();
    order_cells(alloc, down, origin as u64, cells.as_mut_slice())?;
    Ok(make_leaf(cells, &b.desc().shape, Kind::Num, store)?)
}
