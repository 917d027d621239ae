//! The text of an array.

ghost use Rattle.std.specs.Prelude.{◌≡◌, ◌+◌, ◌*◌, ◌<◌, ◌≤◌, ◌++◌, [], encode_utf8_all, string_bytes, IsErrOf, IsOkUnless, OnErr, OnOk};
ghost use Rattle.apl_base.specs.Array.{size_of};
ghost use Rattle.apl_outside.specs.Bytes.{Gains};
ghost use Rattle.apl_outside.specs.Faults.{Rose};
ghost use Rattle.array_store.specs.Stores.{IsStore};
ghost use Rattle.array_store.specs.Counting.{OnlyFetched};
ghost use Rattle.drag_along.specs.Nodes.{leaf_kind, leaf_shape};
ghost use Rattle.drag_along.specs.Lawful.{IsLawfulLeaf};
ghost use Rattle.drag_along.specs.Meaning.{leaf_array};
ghost use Rattle.e_machine.specs.Forced.{cells_from};
ghost use Rattle.apl_model.specs.Printed.{array_text};
ghost use Rattle.apl_print.specs.Bytes.{GainsPrefix, Passes};
ghost use Rattle.apl_print.specs.Layout.{elements_text, start, text_of_none};

use crate::blocks::{BLOCK, read_block};
use crate::elements::add_elements;
use crate::faults::PrintFault;
use crate::grids::{Grid, Spot};
use crate::sends::{send, send_full};
use crate::widths::column_widths;
use apl_outside::Sink;
use array_store::Store;
use drag_along::Leaf;
use std::alloc::Global;

/// Writes the text of the array that a leaf stands for: a scalar or a vector on a line, and an array of more axes by
/// its rows, in columns, with an empty line between two planes. Each element is read once, for more axes twice, and
/// the store stays otherwise. What is not pushed yet takes a piece of memory, and the widths a byte for each column.
pub fn write_leaf<O: Sink>(
    alloc: Global,
    leaf: &Leaf,
    store: &mut Store,
    out: &mut O,
) -> Result<(), PrintFault>
    requires lawful { IsLawfulLeaf store.old leaf.now }
    ensures ok { OnOk result (Gains (O.written out.old) (O.written out.new)
        (encode_utf8_all (array_text (leaf_array store.old (leaf_shape leaf.now) leaf.now)))) }
    ensures err { OnErr result (GainsPrefix (O.written out.old) (O.written out.new)
        (encode_utf8_all (array_text (leaf_array store.old (leaf_shape leaf.now) leaf.now)))) }
    ensures counted { OnlyFetched store.old store.new (2 * size_of (leaf_shape leaf.now)) }
    ensures store { IsStore store.new }
    ensures rose { IsErrOf result PrintFault.OutFault → Rose (O.faults out.old) (O.faults out.new) }
    ensures never_falls { O.faults out.old ≤ O.faults out.new }
{
    // It tells the proof that the counts are numbers of a machine.
    let _counts = store.counts();
    let desc = leaf.desc();
    let lengths = desc.shape.lengths();
    if desc.size() == 0 {
        return send(text_of_none(lengths), out);
    }
    let grid = Grid::of(leaf.kind(), lengths);
    if lengths.len() < 2 {
        return write_elements(alloc, leaf, grid, &[], store, out);
    }
    let widths = column_widths(alloc, leaf, grid, store)?;
    write_elements(alloc, leaf, grid, widths.as_slice(), store, out)
}

// The text of an array of these lengths that has no element: an empty line, or nothing for two axes or more.
fn text_of_none(lengths: &[u64]) -> &'static str
    ensures { result.now ≡ text_of_none lengths.now }
{
    if lengths.len() < 2 { "\n" } else { "" }
}

// Writes the elements of a leaf, in columns of these widths.
fn write_elements<O: Sink>(
    alloc: Global,
    leaf: &Leaf,
    grid: Grid,
    widths: &[u8],
    store: &mut Store,
    out: &mut O,
) -> Result<(), PrintFault>
    requires lawful { IsLawfulLeaf store.old leaf.now }
    requires kind { grid.kind ≡ leaf_kind leaf.now }
    requires rows { 0 < grid.rows }
    requires columns { 0 < grid.columns }
    ensures ok { OnOk result (Gains (O.written out.old) (O.written out.new)
        (encode_utf8_all (elements_text grid widths.now start
        (cells_from store.old leaf.now 0 (size_of (leaf_shape leaf.now)))))) }
    ensures err { OnErr result (GainsPrefix (O.written out.old) (O.written out.new)
        (encode_utf8_all (elements_text grid widths.now start
        (cells_from store.old leaf.now 0 (size_of (leaf_shape leaf.now)))))) }
    ensures counted { OnlyFetched store.old store.new (size_of (leaf_shape leaf.now)) }
    ensures store { IsStore store.new }
    ensures rose { IsErrOf result PrintFault.OutFault → Rose (O.faults out.old) (O.faults out.new) }
    ensures never_falls { O.faults out.old ≤ O.faults out.new }
{
    // It tells the proof that the counts are numbers of a machine.
    let _counts = store.counts();
    let mut cells = Vec::with_capacity(alloc, BLOCK as usize)?;
    let mut text = String::with_capacity(alloc, ROOM)?;
    let size = leaf.desc().size();
    let mut at = Spot { row: 0, column: 0 };
    let mut done = 0;
    while done < size {
        done += read_block(leaf, done, store, &mut cells);
        at = add_elements(grid, widths, at, cells.as_slice(), &mut text)?;
        send_full(&mut text, out)?;
    }
    send(text.as_str(), out)
}

/// The room of a text before it goes out: what is not yet a piece, and what the cells of a block add to it. It grows
/// where wide columns need more.
const ROOM: usize = 49152;
