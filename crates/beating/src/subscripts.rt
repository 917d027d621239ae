//! Subscripts of one descriptor.

ghost use Rattle.std.specs.Prelude.{◌≡◌, ◌<◌, length, map, slice_index, slice_set};
ghost use Rattle.apl_base.specs.Array.{IsShape};
ghost use Rattle.apl_base.specs.Selection.{subscript_shape, subscript_index};
ghost use Rattle.array_desc.specs.Desc.{IsDesc, Selects};
ghost use Rattle.array_desc.specs.Steps.{paired};
ghost use Rattle.beating.specs.Selecting.{position_of, ItemsFit};
ghost use Rattle.beating.specs.Passes.{Passable, part_of, part_length, part_place, PartFits, parts_of, end_of, OneLeft};

use crate::selections::Item;
use array_desc::Desc;

/// Keeps of each axis what its item says. The items that make no axis longer come first and the axes that go away
/// last, so that the descriptor is lawful after each.
pub fn select_items(desc: &mut Desc, items: &[Item])
    requires lawful { IsDesc desc.old }
    requires items { ItemsFit items.now desc.old.shape }
    requires lengths { IsShape (subscript_shape (map position_of items.now) desc.old.shape) }
    ensures selects { Selects desc.old desc.new
        (subscript_shape (map position_of items.now) desc.old.shape)
        (subscript_index (map position_of items.now)) }
    ensures lawful { IsDesc desc.new }
{
    select_parts(desc, items, false);
    select_parts(desc, items, true);
    remove_axes(desc, items);
}

// Applies to each axis what a pass applies of its item: the one that makes axes longer, or the one that doesn't.
fn select_parts(desc: &mut Desc, items: &[Item], longer: bool)
    requires lawful { IsDesc desc.old }
    requires passable { Passable longer items.now desc.old.shape }
    ensures selects { Selects desc.old desc.new
        (paired part_length (parts_of longer items.now desc.old.shape) desc.old.shape)
        (paired part_place (parts_of longer items.now desc.old.shape)) }
    ensures lawful { IsDesc desc.new }
{
    for axis in 0..items.len() {
        let part = part_of(items[axis], desc.shape.len(axis), longer);
        select_part(desc, axis, part);
    }
}

// What of an item a pass applies to an axis of n elements.
fn part_of(item: Item, n: u64, longer: bool) -> Item
    ensures { result ≡ part_of longer item n }
{
    match item {
        Item::At { i } if !longer => Item::Run {
            from: i,
            step: 0,
            n: 1,
        },
        Item::Run { n: count, .. } if longer == (n < count) => item,
        _ => Item::All,
    }
}

// Applies a part to an axis.
fn select_part(desc: &mut Desc, axis: usize, part: Item)
    requires lawful { IsDesc desc.old }
    requires axis { axis < length desc.old.shape }
    requires places { PartFits part (slice_index desc.old.shape axis) }
    requires lengths { IsShape
        (slice_set desc.old.shape axis (part_length part (slice_index desc.old.shape axis))) }
    ensures selects { Selects desc.old desc.new
        (slice_set desc.old.shape axis (part_length part (slice_index desc.old.shape axis)))
        (λ is. slice_set is axis (part_place part (slice_index is axis))) }
    ensures lawful { IsDesc desc.new }
{
    if let Item::Run { from, step, n } = part {
        desc.progression(axis, from, step, n);
    }
}

// Removes the axes of which one place is kept, from the last one to the first.
fn remove_axes(desc: &mut Desc, items: &[Item])
    requires lawful { IsDesc desc.old }
    requires ones { OneLeft items.now desc.old.shape }
    ensures selects { Selects desc.old desc.new
        (subscript_shape (map end_of items.now) desc.old.shape)
        (subscript_index (map end_of items.now)) }
    ensures lawful { IsDesc desc.new }
{
    for axis in (0..items.len()).rev() {
        if let Item::At { .. } = items[axis] {
            desc.at(axis, 0);
        }
    }
}
