//! What positions keep of their axes, where they are left out, scalars or numbers in progression.

ghost use Rattle.std.specs.Prelude.{◌≡◌, ◌^◌, ◌≤◌, false, length, All, IfOk, IfErr, IfSome};
ghost use Rattle.std.specs.List.{list_any};
ghost use Rattle.std.specs.Option.{option_map};
ghost use Rattle.array_store.specs.Counting.{OnlyCounted};
ghost use Rattle.drag_along.specs.Lawful.{IsLawfulLeaf};
ghost use Rattle.drag_along.specs.Nodes.{leaf_shape};
ghost use Rattle.apl_model.specs.Subscript.{is_text_position, in_axis, in_axes};
ghost use Rattle.apl_model.specs.Whole.{is_text};
ghost use Rattle.apl_model_laws.specs.Lawful.{IsOrigin};
ghost use Rattle.leaf_names.specs.Variables.{array_of};
ghost use Rattle.pending_laws.specs.Subscripts.{IsItemAt, AreItems};
ghost use Rattle.indexing_steps.specs.Choices.{IsProgression};
ghost use Rattle.indexing_steps.specs.Operands.{arrays_of};

use apl_base::{Cell, ErrorKind, Shape};
use array_store::Store;
use beating::{Item, Run, as_progression, item_of};
use drag_along::Leaf;
use made_leaf::first_cell;
use smallvec::SmallVec;
use std::alloc::Global;

/// Numbers in progression as a position: a scalar, or of one axis.
#[derive(Clone, Copy)]
pub struct Progression {
    pub run: Run,
    pub is_scalar: bool,
}

/// What the positions keep of the axes of a shape, or none where one of them is neither left out nor a scalar nor numbers
/// in progression. INDEX ERROR where one of these names no place of its axis.
pub fn items_of(
    alloc: Global,
    shape: &Shape,
    positions: &[Option<Leaf>],
    origin: Cell,
    store: &mut Store,
) -> Result<Option<SmallVec<Item, 8>>, ErrorKind>
    requires lawful { All (λ p. IfSome p (IsLawfulLeaf store.old)) positions.now }
    requires count { length positions.now ≡ length shape.now }
    requires numbers { list_any is_text_position (arrays_of store.old positions.now) ≡ false }
    requires origin { IsOrigin origin }
    ensures items { IfOk result (λ found. IfSome found (λ items.
        AreItems origin shape.now (arrays_of store.old positions.now) items.items)) }
    ensures refused { IfErr result (λ kind. (kind ≡ ErrorKind.Index)
        × (in_axes origin shape.now (arrays_of store.old positions.now) ≡ false)) }
    ensures counted { OnlyCounted store.old store.new }
{
    // It tells the proof that there are at most 8 axes.
    let _rank = shape.rank();
    let mut items = SmallVec::new(alloc);
    for axis in 0..positions.len() {
        match item_at(&positions[axis], origin, shape.len(axis), store) {
            Ok(Some(item)) => items.push_reserved(item),
            Ok(None) => return Ok(None),
            Err(kind) => return Err(kind),
        }
    }
    Ok(Some(items))
}

// What a position keeps of an axis of so many elements.
fn item_at(
    position: &Option<Leaf>,
    origin: Cell,
    length: u64,
    store: &mut Store,
) -> Result<Option<Item>, ErrorKind>
    requires lawful { IfSome position.now (IsLawfulLeaf store.old) }
    requires numbers { is_text_position (option_map (array_of store.old) position.now) ≡ false }
    requires origin { IsOrigin origin }
    requires length { length ≤ 2 ^ 40 }
    ensures item { IfOk result (λ found. IfSome found (λ item.
        IsItemAt origin length (option_map (array_of store.old) position.now) item)) }
    ensures refused { IfErr result (λ kind. (kind ≡ ErrorKind.Index)
        × (in_axis origin length (option_map (array_of store.old) position.now) ≡ false)) }
    ensures counted { OnlyCounted store.old store.new }
{
    let Some(leaf) = position else {
        return Ok(Some(Item::All));
    };
    let Some(progression) = progression_of(leaf, store) else {
        return Ok(None);
    };
    match item_of(progression.run, progression.is_scalar, origin, length) {
        Ok(item) => Ok(Some(item)),
        Err(kind) => Err(kind),
    }
}

// The progression that a position is, which is no characters: a scalar, or numbers of one axis in progression.
fn progression_of(leaf: &Leaf, store: &mut Store) -> Option<Progression>
    requires lawful { IsLawfulLeaf store.old leaf.now }
    requires numbers { is_text (array_of store.old leaf.now) ≡ false }
    ensures progression { IfSome result (λ p.
        IsProgression (array_of store.old leaf.now) p.run p.is_scalar) }
    ensures counted { OnlyCounted store.old store.new }
{
    match leaf.desc().shape.rank() {
        0 => Some(scalar_progression(leaf, store)),
        1 => vector_progression(leaf, store),
        _ => None,
    }
}

// The one number of a scalar.
fn scalar_progression(leaf: &Leaf, store: &mut Store) -> Progression
    requires lawful { IsLawfulLeaf store.old leaf.now }
    requires numbers { is_text (array_of store.old leaf.now) ≡ false }
    requires scalar { length (leaf_shape leaf.now) ≡ 0 }
    ensures progression { IsProgression (array_of store.old leaf.now) result.run result.is_scalar }
    ensures counted { OnlyCounted store.old store.new }
{
    // Both tell the proof that what they are of is lawful.
    let _counts = store.counts();
    let _same = leaf.copy();
    let from = first_cell(leaf, store);
    Progression {
        run: Run {
            from,
            step: 0,
            n: 1,
        },
        is_scalar: true,
    }
}

// The progression that the numbers of one axis are. Where there is no element, the kind is no matter.
fn vector_progression(leaf: &Leaf, store: &mut Store) -> Option<Progression>
    requires lawful { IsLawfulLeaf store.old leaf.now }
    requires numbers { is_text (array_of store.old leaf.now) ≡ false }
    requires vector { length (leaf_shape leaf.now) ≡ 1 }
    ensures progression { IfSome result (λ p.
        IsProgression (array_of store.old leaf.now) p.run p.is_scalar) }
    ensures counted { OnlyCounted store.old store.new }
{
    if leaf.desc().size() == 0 {
        return Some(Progression {
            run: Run {
                from: 0,
                step: 0,
                n: 0,
            },
            is_scalar: false,
        });
    }
    let Some(run) = as_progression(leaf, store) else {
        return None;
    };
    Some(Progression {
        run,
        is_scalar: false,
    })
}
