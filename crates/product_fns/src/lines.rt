//! Inner products of lines that stand in vectors one behind the other.
ghost use Rattle.std.specs.Prelude.{◌≡◌, [], ◌∷◌, ◌+◌, ◌-◌, ◌*◌, ◌/◌, ◌^◌, ◌<◌, ◌≤◌, length, map, All, IfSome, IsTrue, MatchBool};
ghost use Rattle.std.specs.Option.{option_map};
ghost use Rattle.apl_base.specs.declared.cells.Kind.TheVariants.{Num};
ghost use Rattle.apl_base.specs.Elements.{element};
ghost use Rattle.apl_base.specs.Number.{IsCell, IsNumber};
ghost use Rattle.apl_base.specs.Scalar.{number};
ghost use Rattle.array_store.specs.Stores.{IsStore};
ghost use Rattle.array_store.specs.Counting.{OnlyComputed, Computed};
ghost use Rattle.apl_model.specs.Product.{reduced};
ghost use Rattle.apl_base.specs.declared.cells.Elem.{Elem};
ghost use Rattle.apl_base.specs.declared.rows.Dya.{Dya};
ghost use Rattle.scalar_table.specs.Columns.{element_in};
ghost use Rattle.scalar_table.specs.Row.{Two, scalar, IsNumberElement};
ghost use Rattle.product_fns.specs.Inner.{product_of, lines_of, AreAllProducts, HasUndefinedProduct};

use crate::folds::{fold, value_of};
use apl_base::{Cell, Dya, Elem, Kind};
use array_store::Store;
use scalar_table::{Add, And, Eq, Max, Min, Mul, Or, ScalarRow, apply2_column, identity};

/// Cells of one kind, in lines that stand one behind the other.
#[derive(Drop)]
pub(crate) struct Lined {
    pub(crate) kind: Kind,
    pub(crate) cells: Vec<Cell>,
}

/// Fills the results, row by row, by each line of the left with each of the `q` lines of the right: whether each is
/// defined. A line is as long as the buffer.
pub(crate) fn fill_products(
    f: Dya,
    g: Dya,
    left: &Lined,
    right: &Lined,
    q: usize,
    store: &mut Store,
    buffer: &mut [Cell],
    results: &mut [Cell],
) -> bool
    requires row { 0 < q }
    requires left { length left.now.cells.items ≡ length results.old / q * length buffer.old }
    requires right { length right.now.cells.items ≡ q * length buffer.old }
    requires left_lawful { All (IsCell left.now.kind) left.now.cells.items }
    requires right_lawful { All (IsCell right.now.kind) right.now.cells.items }
    requires whole { length results.old / q * q ≡ length results.old }
    requires few { length buffer.old ≤ 2 ^ 40 }
    requires few_left { length left.now.cells.items ≤ 2 ^ 40 }
    ensures value { MatchBool result
        (AreAllProducts (lines_of f g left.now right.now (length buffer.old) q) results.new)
        (HasUndefinedProduct (lines_of f g left.now right.now (length buffer.old) q)
        (length results.old)) }
    ensures counted { OnlyComputed store.old store.new
        (length results.old * (length buffer.old + (length buffer.old - 1))) 0 }
    ensures all { IsTrue result → Computed store.old store.new
        (length results.old * (length buffer.old + (length buffer.old - 1))) 0 }
    ensures store { IsStore store.new }
{
    // It tells the proof that the counts are numbers of a machine.
    let _counts = store.counts();
    let n = buffer.len();
    for p in 0..results.len() {
        let i = p / q * n;
        let j = p % q * n;
        store.count_applied_many(n as u64 + (n as u64).saturating_sub(1));
        let row = &left.cells[i..i + n];
        let column = &right.cells[j..j + n];
        let Some(cell) = product(f, g, left.kind, row, right.kind, column, buffer) else {
            return false;
        };
        results[p] = cell;
    }
    true
}

/// The result for two lines in one loop, where the functions are one of the pairs; by the buffer where they are not.
macro_rules! by_pair {
    ($f:ident, $g:ident, $at_once:tt, $by_buffer:expr; $($first:ident $second:ident),*) => {
        match ($f, $g) {
            $((Dya::$first, Dya::$second) => product_at_once::<$first, $second> $at_once,)*
            _ => $by_buffer,
        }
    };
}

// The result for two lines. Where the functions are one of the commonest pairs, the buffer goes unused.
fn product(
    f: Dya,
    g: Dya,
    left_kind: Kind,
    left: &[Cell],
    right_kind: Kind,
    right: &[Cell],
    buffer: &mut [Cell],
) -> Option<Cell>
    requires left { All (IsCell left_kind) left.now }
    requires right { All (IsCell right_kind) right.now }
    requires same { length left.now ≡ length right.now }
    requires buffer { length buffer.old ≡ length right.now }
    ensures exact { option_map number result
        ≡ product_of f g left_kind left.now right_kind right.now (length right.now) }
    ensures number { IfSome result IsNumber }
{
    if right.is_empty() {
        return identity(f);
    }
    by_pair!(f, g, (left_kind, left, right_kind, right),
        product_by_buffer(f, g, left_kind, left, right_kind, right, buffer);
        Add Mul, Add Eq, Or And, And Eq, Max Add, Min Add)
}

// The same, where g goes through a copy of the right line, and f through that.
fn product_by_buffer(
    f: Dya,
    g: Dya,
    left_kind: Kind,
    left: &[Cell],
    right_kind: Kind,
    right: &[Cell],
    buffer: &mut [Cell],
) -> Option<Cell>
    requires left { All (IsCell left_kind) left.now }
    requires right { All (IsCell right_kind) right.now }
    requires same { length left.now ≡ length right.now }
    requires buffer { length buffer.old ≡ length right.now }
    ensures exact { option_map number result
        ≡ product_of f g left_kind left.now right_kind right.now (length right.now) }
    ensures number { IfSome result IsNumber }
{
    buffer.copy_from_slice(right);
    if let Some(_) = apply2_column(g, left_kind, left, right_kind, buffer) {
        return None;
    }
    reduce_numbers(f, buffer)
}

// The same for lines of one element at least, in one loop from their end.
fn product_at_once<F: ScalarRow<Arguments = (Elem, Elem)>, G: ScalarRow<Arguments = (Elem, Elem)>>(
    left_kind: Kind,
    left: &[Cell],
    right_kind: Kind,
    right: &[Cell],
) -> Option<Cell>
    requires combines { (x : Elem × Elem) → F.elements x ≡ x.0 ∷ x.1 ∷ [] }
    requires pairs { (x : Elem × Elem) → G.elements x ≡ x.0 ∷ x.1 ∷ [] }
    requires some { 0 < length right.now }
    requires same { length left.now ≡ length right.now }
    requires left { All (IsCell left_kind) left.now }
    requires right { All (IsCell right_kind) right.now }
    ensures exact { (f g : Dya) → F.function ≡ Two f → G.function ≡ Two g
        → option_map number result
        ≡ product_of f g left_kind left.now right_kind right.now (length right.now) }
    ensures number { IfSome result IsNumber }
{
    let mut k = right.len() - 1;
    let Some(last) = pair_at::<G>(left_kind, left, right_kind, right, k) else {
        return None;
    };
    let mut value = last;
    while k > 0 {
        k -= 1;
        let Some(first) = pair_at::<G>(left_kind, left, right_kind, right, k) else {
            return None;
        };
        let Some(next) = value_of::<F>(first, value) else {
            return None;
        };
        value = next;
    }
    Some(value.cell)
}

// The value at the elements of two lines at a place.
fn pair_at<G: ScalarRow<Arguments = (Elem, Elem)>>(
    left_kind: Kind,
    left: &[Cell],
    right_kind: Kind,
    right: &[Cell],
    k: usize,
) -> Option<Elem>
    requires pairs { (x : Elem × Elem) → G.elements x ≡ x.0 ∷ x.1 ∷ [] }
    requires same { length left.now ≡ length right.now }
    requires left { All (IsCell left_kind) left.now }
    requires right { All (IsCell right_kind) right.now }
    requires place { k < length right.now }
    ensures exact { result ≡ scalar G.function
        (element_in left_kind left.now k ∷ element_in right_kind right.now k ∷ []) }
    ensures lawful { IfSome result IsNumberElement }
{
    let a = Elem {
        kind: left_kind,
        cell: left[k],
    };
    let b = Elem {
        kind: right_kind,
        cell: right[k],
    };
    value_of::<G>(a, b)
}

// A reduction of numbers.
fn reduce_numbers(f: Dya, cells: &[Cell]) -> Option<Cell>
    requires { All IsNumber cells.now }
    ensures exact { option_map number result ≡ reduced f (map (element Num) cells.now) }
    ensures number { IfSome result IsNumber }
{
    if cells.is_empty() {
        return identity(f);
    }
    let end = cells.len() - 1;
    let kind = Kind::Num;
    let cell = cells[end];
    match fold(f, kind, &cells[..end], Elem { kind, cell }) {
        Some(value) => Some(value.cell),
        None => None,
    }
}
