//! Pending expressions computed by blocks.

ghost use Rattle.std.specs.Prelude.{◌≡◌, ◌+◌, ◌*◌, ◌≤◌, [], ◌∷◌, length, IsSome, IfOk, OnOk, None};
ghost use Rattle.std.specs.Option.{ForSome};
ghost use Rattle.apl_base.specs.Array.{size_of};
ghost use Rattle.array_store.specs.Stores.{IsStore};
ghost use Rattle.array_store.specs.Counting.{OnlyComputed, ComputedJust};
ghost use Rattle.drag_along.specs.Nodes.{AllLeaves, functions_in, stored_in, pending_after};
ghost use Rattle.drag_along.specs.Meaning.{IsFirstFault};
ghost use Rattle.drag_along.specs.Lawful.{IsLawfulLeaf};
ghost use Rattle.drag_along.specs.Views.{only_leaf};
ghost use Rattle.e_machine.specs.Columns.{AreColumns};
ghost use Rattle.e_machine.specs.Forced.{applications, fetches};
ghost use Rattle.e_machine.specs.Runs.{IsReadable, IsStep, IsRun, IsVisit, HasElements};

use crate::columns::Columns;
use apl_base::{Cell, NoMemory};
use array_store::Store;
use drag_along::{Node, Segment};

/// How many places are computed together: so many cells of a few columns stay near the processor.
const BLOCK: u64 = 1024;

/// How many columns are pending at most: a segment has no more than 64 functions.
const MOST_COLUMNS: usize = 65;

// The values of a node at each of `count` places, from `first` on, and whether there is one at each. Its operands are
// taken from the columns pending. A function is counted before it is tried.
fn step(
    node: &Node,
    first: u64,
    count: usize,
    store: &mut Store,
    pending: &mut Columns,
) -> Result<bool, NoMemory>
    requires operands { IsSome (pending_after (node.now ∷ []) (length pending.old.kinds)) }
    requires readable { AllLeaves (IsReadable store.old first count) (node.now ∷ []) }
    requires columns { AreColumns count pending.old }
    ensures step { IfOk result (IsStep store.old first count node.now pending.old pending.new) }
    ensures just { OnOk result (ComputedJust store.old store.new
        (count * functions_in (node.now ∷ [])) (count * stored_in (node.now ∷ []))) }
    ensures counted { OnlyComputed store.old store.new
        (count * functions_in (node.now ∷ [])) (count * stored_in (node.now ∷ [])) }
    ensures store { IsStore store.new }
{
    // It tells the proof that the counts are numbers of a machine.
    let _counts = store.counts();
    match node {
        Node::Operand { leaf } => {
            pending.read(leaf, first, count, store)?;
            Ok(true)
        }
        Node::One { f, .. } => {
            store.count_applied_many(count as u64);
            pending.apply_one(*f, count)
        }
        Node::Two { f, .. } => {
            store.count_applied_many(count as u64);
            pending.apply_two(*f, count)
        }
    }
}

// Runs the nodes over a block of places, node after node, up to the first that fails at one of them, and answers its
// number; where none fails their values are pending.
fn run(
    nodes: &[Node],
    first: u64,
    count: usize,
    store: &mut Store,
    pending: &mut Columns,
) -> Result<Option<usize>, NoMemory>
    requires operands { IsSome (pending_after nodes.now 0) }
    requires readable { AllLeaves (IsReadable store.old first count) nodes.now }
    ensures run { IfOk result (IsRun store.old store.new first count nodes.now pending.new) }
    ensures counted { OnlyComputed store.old store.new
        (count * functions_in nodes.now) (count * stored_in nodes.now) }
    ensures store { IsStore store.new }
{
    let _counts = store.counts();
    pending.clear();
    for (number, node) in nodes.iter().enumerate() {
        if !step(node, first, count, store, pending)? {
            return Ok(Some(number));
        }
    }
    Ok(None)
}

// Visits a block of places with the nodes before `limit`: it answers the number of the first of them that fails at one
// of the places, if one does. Where these are all nodes and none fails, the cells of the elements are put behind the
// others.
fn visit(
    s: &Segment,
    limit: usize,
    first: u64,
    count: usize,
    store: &mut Store,
    pending: &mut Columns,
    cells: &mut Vec<Cell>,
) -> Result<Option<usize>, NoMemory>
    requires limit { limit ≤ length s.now.nodes }
    requires places { first + count ≤ size_of s.now.shape }
    requires leaves { AllLeaves (IsLawfulLeaf store.old) s.now.nodes }
    requires many { only_leaf s.now.nodes ≡ None }
    ensures visit { IfOk result (IsVisit store.old store.new s.now limit first count
        cells.old.items cells.new.items) }
    ensures counted { OnlyComputed store.old store.new
        (count * functions_in s.now.nodes) (count * stored_in s.now.nodes) }
    ensures store { IsStore store.new }
{
    if let Some(failed) = run(&s.nodes[..limit], first, count, store, pending)? {
        return Ok(Some(failed));
    }
    if limit == s.nodes.len() {
        cells.extend_from_slice(&pending.cells)?;
    }
    Ok(None)
}

// For how many columns room is asked at once. Where more came, room would be made for each, so no clause hangs on it.
fn most_pending(nodes: &[Node]) -> usize {
    let mut pending: usize = 0;
    let mut most = 0;
    for node in nodes {
        match node {
            Node::Operand { .. } => pending = pending.saturating_add(1),
            Node::One { .. } => {}
            Node::Two { .. } => pending = pending.saturating_sub(1),
        }
        most = pending.max(most);
    }
    most
}

/// Computes the elements in row-major order, and puts their cells behind each other. It answers the number of the first
/// node that fails at any index, if one does.
pub fn compute(
    s: &Segment,
    store: &mut Store,
    cells: &mut Vec<Cell>,
) -> Result<Option<usize>, NoMemory>
    requires leaves { AllLeaves (IsLawfulLeaf store.old) s.now.nodes }
    requires many { only_leaf s.now.nodes ≡ None }
    requires empty { cells.old.items ≡ [] }
    ensures fault { IfOk result (λ failed. ForSome failed (IsFirstFault store.old s.now)) }
    ensures cells { IfOk result (λ failed. failed ≡ None
        → HasElements store.old store.new s.now cells.new.items) }
    ensures counted { OnlyComputed store.old store.new (applications s.now) (fetches s.now) }
    ensures store { IsStore store.new }
{
    let _counts = store.counts();
    let size = s.shape.size();
    let columns = most_pending(&s.nodes).min(MOST_COLUMNS);
    let mut pending = Columns::new(s.shape.allocator(), columns * BLOCK.min(size) as usize)?;
    let mut failed = None;
    let mut done = 0;
    while done < size {
        let count = BLOCK.min(size - done);
        let limit = failed.unwrap_or(s.nodes.len());
        let earlier = visit(s, limit, done, count as usize, store, &mut pending, cells)?;
        failed = earlier.or(failed);
        done += count;
    }
    Ok(failed)
}
