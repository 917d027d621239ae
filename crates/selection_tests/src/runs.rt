//! Progressions and their folds against tables.

ghost use Rattle.std.specs.Prelude.{◌≡◌, ℕ, ◌<◌, ◌≤◌, pos, ◌+ℤ◌, ◌*ℤ◌, ◌≤ℤ◌, ◌<ℤ◌, List, [], ◌∷◌, length, All, IfOk, vec_len};
ghost use Rattle.apl_base.specs.Array.{IsIndex};
ghost use Rattle.apl_base.specs.Number.{IsNumber};
ghost use Rattle.array_desc.specs.Desc.{number as number_of};
ghost use Rattle.beating.specs.Folds.{NumbersInRange};

use apl_base::{Cell, Dya, ErrorKind, Kind, M, Mon, NoMemory};
use array_desc::Desc;
use array_store::{BeginFault, Store};
use beating::{Item, Run, as_progression, fold1, fold2, item_of};
use drag_along::{Leaf, Segment};
use std::alloc::Global;
use std::test::Fail;

// ---- progressions

// The cells of these numbers.
fn filled(mut cells: Vec<Cell>, numbers: &[Cell]) -> Result<Vec<Cell>, NoMemory>
    requires { cells.items ≡ [] }
    ensures numbers { IfOk result (λ v. All IsNumber v.items) }
    ensures count { IfOk result (λ v. vec_len v ≡ length numbers.now) }
{
    for number in numbers {
        cells.push((*number).clamp(-M, M))?;
    }
    Ok(cells)
}

// The places of n cells, in order or backwards.
fn places(alloc: Global, n: u64, backwards: bool) -> Desc
    requires { n ≤ 9 }
    ensures shape { result.shape ≡ n ∷ [] }
    ensures low { (i : List ℕ) → IsIndex (n ∷ []) i → pos 0 ≤ℤ number_of result i }
    ensures high { (i : List ℕ) → IsIndex (n ∷ []) i → number_of result i <ℤ pos n }
{
    if backwards {
        Desc::line(alloc, Cell::from(n) - 1, -1, n)
    } else {
        Desc::line(alloc, 0, 1, n)
    }
}

// The progression that a stored vector of these numbers is, in order or backwards, and how many of its cells were
// fetched.
fn found(
    alloc: Global,
    numbers: &[Cell],
    backwards: bool,
) -> Result<(Option<(Cell, Cell, u64)>, u64), BeginFault>
    requires { length numbers.now ≤ 9 }
{
    let mut store = Store::new(alloc, 9);
    let cells = filled(store.begin(9)?, numbers)?;
    let desc = places(alloc, numbers.len() as u64, backwards);
    let owner = store.make(cells, Kind::Num)?;
    let leaf = Leaf::Stored {
        owner,
        desc,
        kind: Kind::Num,
    };
    let run = as_progression(&leaf, &mut store).map(|run| (run.from, run.step, run.n));
    Ok((run, store.counts().fetched))
}

// Numbers, whether they are read backwards, the first number, the step and the count of their progression, and the
// fetches that tell.
const VECTORS: [(&[Cell], bool, Option<(Cell, Cell, u64)>, u64); 10] = [
    (&[], false, Some((0, 0, 0)), 0),
    (&[7], false, Some((7, 0, 1)), 1),
    (&[M, -M], false, Some((M, -2 * M, 2)), 2),
    (&[-M, 0, M], false, Some((-M, M, 3)), 3),
    (&[3, 5, 7, 9], false, Some((3, 2, 4)), 4),
    (&[9, 4, -1], false, Some((9, -5, 3)), 3),
    (&[6, 6, 6], false, Some((6, 0, 3)), 3),
    (&[2, 5, 8], true, Some((8, -3, 3)), 3),
    (&[1, 2, 4, 5], false, None, 3),
    (&[1, 2, 3, 4, 6], false, None, 5),
];

// Each vector of the table is the progression that stands beside it, or none.
#[test]
fn progressions(rt: HostRuntime) -> Result<(), Fail> {
    for (numbers, backwards, run, fetched) in VECTORS {
        assert!(rt; numbers.len() <= 9);
        assert_eq!(rt;
            found(rt.alloc(), numbers, backwards)?,
            (run, fetched),
            "{numbers:?}"
        );
    }
    Ok(())
}

// ---- folds

// The vector of three numbers.
fn three(alloc: Global, from: Cell, step: Cell) -> Result<Segment, NoMemory>
    requires { (j : ℕ) → j < 3 → IsNumber (from +ℤ (step *ℤ pos j)) }
    ensures shape { IfOk result (λ s. s.shape ≡ 3 ∷ []) }
    ensures range { IfOk result NumbersInRange }
{
    let desc = Desc::line(alloc, from, step, 3);
    let range = desc.least_and_greatest();
    let leaf = Leaf::Gen {
        desc,
        kind: Kind::Num,
    };
    Segment::of_leaf(alloc, leaf, range)
}

// Three numbers at a distance, pending and not stored.
fn line(alloc: Global, from: i8, step: i8) -> Result<Segment, NoMemory>
    ensures shape { IfOk result (λ s. s.shape ≡ 3 ∷ []) }
    ensures range { IfOk result NumbersInRange }
{
    three(alloc, Cell::from(from), Cell::from(step))
}

// One number three times, pending and not stored.
fn constant(alloc: Global, number: Cell) -> Result<Segment, NoMemory>
    ensures shape { IfOk result (λ s. s.shape ≡ 3 ∷ []) }
    ensures range { IfOk result NumbersInRange }
{
    three(alloc, number.clamp(-M, M), 0)
}

// The first number of a vector, and how far they are apart.
fn line_of(leaf: Option<Leaf>) -> Option<(Cell, Cell)> {
    match leaf {
        Some(Leaf::Gen { desc, .. }) => Some((desc.base, *desc.strides.as_slice().first()?)),
        _ => None,
    }
}

// `-` of a progression is one; another function is not folded.
#[test]
fn folds_of_one(rt: HostRuntime) -> Result<(), Fail> {
    let odd = line(rt.alloc(), 3, 2)?;
    assert_eq!(rt; line_of(fold1(&odd, Mon::Minus)), Some((-3, -2)));
    assert!(rt; fold1(&odd, Mon::Plus).is_none());
    Ok(())
}

// A function of 3, 5, 7 and of a number, which stands on the left or not, and what it gives.
const PAIRS: [(Dya, bool, Cell, Option<(Cell, Cell)>); 13] = [
    (Dya::Add, true, 4, Some((7, 2))),
    (Dya::Add, false, 4, Some((7, 2))),
    (Dya::Add, false, M - 7, Some((M - 4, 2))),
    (Dya::Add, false, M - 6, None),
    (Dya::Sub, true, 4, Some((1, -2))),
    (Dya::Sub, false, 4, Some((-1, 2))),
    (Dya::Sub, true, 7 - M, Some((4 - M, -2))),
    (Dya::Sub, true, 6 - M, None),
    (Dya::Mul, true, 4, Some((12, 8))),
    (Dya::Mul, false, 4, Some((12, 8))),
    (Dya::Mul, true, M / 7, Some((M / 7 * 3, M / 7 * 2))),
    (Dya::Mul, true, M / 7 + 1, None),
    (Dya::Max, false, 4, None),
];

// Sums, differences and products with a constant are progressions, at the ends of the safe range.
#[test]
fn folds_of_two(rt: HostRuntime) -> Result<(), Fail> {
    let odd = line(rt.alloc(), 3, 2)?;
    assert!(rt; fold2(Dya::Add, &odd, &odd).is_none());
    for (f, on_left, number, want) in PAIRS {
        let same = constant(rt.alloc(), number)?;
        let leaf = if on_left {
            fold2(f, &same, &odd)
        } else {
            fold2(f, &odd, &same)
        };
        assert_eq!(rt; line_of(leaf), want, "{f:?} {number}");
    }
    Ok(())
}

// ---- positions

// On an axis of six elements.
#[test]
fn items_of_positions(rt: HostRuntime) -> Result<(), Fail> {
    let odd = Run {
        from: 1,
        step: 2,
        n: 3,
    };
    let odd_places = Item::Run {
        from: 0,
        step: 2,
        n: 3,
    };
    assert_eq!(rt; item_of(odd, false, 1, 6), Ok(odd_places));
    let back = Run {
        from: 6,
        step: -1,
        n: 2,
    };
    let back_places = Item::Run {
        from: 5,
        step: -1,
        n: 2,
    };
    assert_eq!(rt; item_of(back, false, 1, 6), Ok(back_places));
    assert_eq!(rt; item_of(back, false, 0, 6), Err(ErrorKind::Index));
    let six = Run {
        from: 6,
        step: 0,
        n: 1,
    };
    assert_eq!(rt; item_of(six, true, 1, 6), Ok(Item::At { i: 5 }));
    Ok(())
}
