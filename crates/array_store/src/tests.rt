//! A store of four cells.

ghost use Rattle.std.specs.Prelude.{◌≡◌, [], All, IfOk};
ghost use Rattle.apl_base.specs.Number.{IsNumber};

use crate::{BeginFault, Counts, Store};
use apl_base::{Cell, Interval, Kind};
use std::alloc::AllocError;
use std::test::Fail;

fn filled(mut cells: Vec<Cell>, values: &[i8]) -> Result<Vec<Cell>, AllocError>
    requires { cells.items ≡ [] }
    ensures { IfOk result (λ v. All IsNumber v.items) }
{
    for value in values {
        cells.push(Cell::from(*value))?;
    }
    Ok(cells)
}

#[test]
fn four_cells_in_a_store_of_four(rt: HostRuntime) -> Result<(), Fail> {
    let mut store = Store::new(rt.alloc(), 4);
    let cells = filled(store.begin(4)?, &[5, -2, 9, 5])?;
    assert_eq!(rt; cells.len(), 4);
    let owner = store.make(cells, Kind::Num)?;
    let refused = BeginFault::WsFull { live: 4, asked: 1 };
    assert_eq!(rt; store.begin(1).err(), Some(refused));
    assert_eq!(rt; store.cells(owner), 4);
    assert_eq!(rt; store.holders(owner), 1);
    assert_eq!(rt; store.interval(owner), Interval::Span { lo: -2, hi: 9 });
    store.release(owner);
    assert_eq!(rt; store.live(), 0);
    Ok(())
}

#[test]
fn a_cell_read_and_written(rt: HostRuntime) -> Result<(), Fail> {
    let mut store = Store::new(rt.alloc(), 9);
    let cells = filled(store.begin(3)?, &[5, -2, 9])?;
    assert_eq!(rt; cells.len(), 3);
    let owner = store.make(cells, Kind::Num)?;
    assert_eq!(rt; store.fetch(owner, 1), -2);
    store.write(owner, 1, 70);
    assert_eq!(rt; store.fetch(owner, 1), 70);
    assert_eq!(rt; store.interval(owner), Interval::Span { lo: -2, hi: 70 });
    store.count_applied();
    let counts = Counts {
        fetched: 2,
        made: 3,
        applied: 1,
    };
    assert_eq!(rt; store.counts(), counts);
    Ok(())
}

#[test]
fn an_owner_of_nothing(rt: HostRuntime) -> Result<(), Fail> {
    let mut store = Store::new(rt.alloc(), 0);
    let owner = store.make(store.begin(0)?, Kind::Char)?;
    assert_eq!(rt; store.interval(owner), Interval::Empty);
    assert_eq!(rt; store.kind(owner), Kind::Char);
    assert_eq!(rt; store.limit(), 0);
    let refused = BeginFault::WsFull {
        live: 0,
        asked: u64::MAX,
    };
    assert_eq!(rt; store.begin(u64::MAX).err(), Some(refused));
    store.hold(owner);
    assert_eq!(rt; store.holders(owner), 2);
    Ok(())
}
