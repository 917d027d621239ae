//! Entries settled, with every kind of fault.

ghost use Rattle.std.specs.Prelude.{◌≡◌, ℕ, IfOk};
ghost use Rattle.apl_base.specs.Number.{IsNumber};
ghost use Rattle.array_store.specs.Stores.{StoreView};
ghost use Rattle.drag_along.specs.Segments.{named_by};
ghost use Rattle.drag_along.specs.Lawful.{IsLawful};

use alias_force::settle;
use apl_base::{Cell, Interval, Kind, M, Mon, NoMemory, Place};
use array_desc::Desc;
use array_store::{Counts, Store};
use drag_along::{Leaf, Segment, join1};
use e_machine::ForceFault;
use std::alloc::Global;
use value_stack::Stack;

/// A function of a number that is not stored, pending.
pub fn pending(alloc: Global, f: Mon, number: Cell, place: Place) -> Result<Segment, NoMemory>
    requires { IsNumber number }
    ensures lawful { IfOk result (λ s. (store : StoreView) → IsLawful store s) }
    ensures names { IfOk result (λ s. (key : ℕ) → named_by s key ≡ 0) }
{
    let leaf = Leaf::Gen {
        desc: Desc::one(alloc, number),
        kind: Kind::Num,
    };
    let segment = Segment::of_leaf(alloc, leaf, Interval::Span { lo: -M, hi: M })?;
    join1(segment, f, place)
}

/// What two entries are after they were settled.
#[derive(Drop)]
pub struct Settled {
    pub answer: Result<(), ForceFault>,
    pub failing: Option<usize>,
    pub counts: Counts,
}

/// Settles two entries that read no owner.
pub fn settled_pair(alloc: Global, older: Segment, newer: Segment) -> Result<Settled, NoMemory>
    requires older { (store : StoreView) → IsLawful store older }
    requires newer { (store : StoreView) → IsLawful store newer }
    requires older_names { (key : ℕ) → named_by older key ≡ 0 }
    requires newer_names { (key : ℕ) → named_by newer key ≡ 0 }
{
    let mut store = Store::new(alloc, 9);
    let mut stack = Stack::new(alloc);
    stack.push(older)?;
    stack.push(newer)?;
    let answer = settle(alloc, &mut stack, &mut store);
    Ok(Settled {
        answer,
        failing: stack.failing_from(0),
        counts: store.counts(),
    })
}
