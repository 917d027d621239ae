//! Descriptors shifted and scaled.

ghost use Rattle.std.specs.Prelude.{◌≡◌, ℕ, ◌↔◌, pos, ◌+ℤ◌, ◌*ℤ◌, IsTrue, List, map};
ghost use Rattle.std.specs.Int.{int_wrap};
ghost use mir.Syntax.{w128};
ghost use Rattle.apl_base.specs.Array.{IsIndex, size_of};
ghost use Rattle.apl_base.specs.Number.{IsNumber};
ghost use Rattle.array_desc.specs.Desc.{IsDesc, number as number_of};
ghost use Rattle.beating.specs.Folds.{AllRest};

use apl_base::Cell;
use array_desc::Desc;
use smallvec::SmallVec;

/// Whether the number is the same at every index, by the strides.
pub fn is_constant(desc: &Desc) -> bool
    ensures { IsTrue result ↔ AllRest desc.now.strides }
{
    desc.strides.as_slice().iter().all(|stride| *stride == 0)
}

/// The descriptor with something added to each number.
pub fn shifted(desc: &Desc, by: Cell) -> Desc
    requires in_range { (i : List ℕ) → IsIndex desc.now.shape i
        → IsNumber (number_of desc.now i +ℤ by) }
    requires empty { size_of desc.now.shape ≡ 0 → by ≡ pos 0 }
    ensures shape { result.shape ≡ desc.now.shape }
    ensures numbers { (i : List ℕ) → IsIndex desc.now.shape i
        → number_of result i ≡ number_of desc.now i +ℤ by }
    ensures lawful { IsDesc result }
{
    let mut moved = desc.copy();
    moved.base += by;
    moved
}

/// The descriptor with each number multiplied.
pub fn scaled(desc: &Desc, by: Cell) -> Desc
    requires { (i : List ℕ) → IsIndex desc.now.shape i
        → IsNumber (number_of desc.now i *ℤ by) }
    ensures shape { result.shape ≡ desc.now.shape }
    ensures numbers { (i : List ℕ) → IsIndex desc.now.shape i
        → number_of result i ≡ number_of desc.now i *ℤ by }
    ensures constant { AllRest desc.now.strides → AllRest result.strides }
    ensures lawful { IsDesc result }
{
    Desc {
        base: wrapped_product(desc.base, by),
        strides: strides_times(desc, by),
        shape: desc.shape.copy(),
    }
}

// The products of the strides, as 128 bits keep them.
fn strides_times(desc: &Desc, by: Cell) -> SmallVec<Cell, 8>
    ensures items { result.items
        ≡ map (λ stride. int_wrap w128 (stride *ℤ by)) desc.now.strides }
    ensures capacity { result.capacity ≡ 8 }
{
    let mut products = SmallVec::new(*desc.strides.allocator());
    for stride in desc.strides.as_slice() {
        products.push_reserved(wrapped_product(*stride, by));
    }
    products
}

// The product, as 128 bits keep it.
fn wrapped_product(a: Cell, b: Cell) -> Cell
    ensures { result ≡ int_wrap w128 (a *ℤ b) }
{
    a.wrapping_mul(b)
}
