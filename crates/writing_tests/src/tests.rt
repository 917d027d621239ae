//! Writes in place over names and a stack.

ghost use Rattle.std.specs.Prelude.{◌≡◌};
ghost use Rattle.writing_tests.specs.Desks.{IsSound};

use crate::{Desk, Five, five_entries, owner_of, pending, picture, settled_pair, writable_number};
use apl_base::{Mon, Name, Place};
use array_store::BeginFault;
use e_machine::ForceFault;
use std::alloc::Global;
use std::test::Fail;

fn at(column: u32) -> Place {
    Place { line: 1, column }
}

#[test]
fn settles_with_ample_memory(rt: HostRuntime) -> Result<(), Fail> {
    let older = pending(rt.alloc(), Mon::Fact, 4, at(1))?;
    let newer = pending(rt.alloc(), Mon::Recip, 1, at(2))?;
    let settled = settled_pair(rt.alloc(), older, newer)?;
    assert!(rt; settled.answer.is_ok());
    assert!(rt; settled.failing.is_none());
    assert!(rt; settled.counts.made == 2);
    assert!(rt; settled.counts.applied == 2);
    Ok(())
}

#[test]
fn the_oldest_fault_is_answered(rt: HostRuntime) -> Result<(), Fail> {
    let older = pending(rt.alloc(), Mon::Recip, 0, at(5))?;
    let newer = pending(rt.alloc(), Mon::Recip, 0, at(9))?;
    let settled = settled_pair(rt.alloc(), older, newer)?;
    assert!(rt; settled.answer == Err(ForceFault::Fault { place: at(5) }));
    assert!(rt; settled.failing == Some(0));
    Ok(())
}

#[test]
fn a_number_gets_an_owner_of_its_own(rt: HostRuntime) -> Result<(), Fail> {
    let name = Name::of(rt.alloc(), "A")?;
    let (owner, store) = writable_number(rt.alloc(), 7, &name)?;
    assert!(rt; store.counts().made == 1);
    assert!(rt; store.live() == 1);
    assert!(rt; owner.key() == 0);
    Ok(())
}

// What is done with the entries and names.
#[derive(Clone, Copy, Debug)]
enum Deed {
    Begin,
    Settle,
    WriteA,
    WriteB,
    WriteC,
}

// Does one deed: whether it was not refused.
fn is_done(alloc: Global, desk: &mut Desk, of: &Five, deed: Deed) -> bool
    requires { IsSound desk.old }
    ensures { IsSound desk.new }
{
    match deed {
        Deed::Begin => true,
        Deed::Settle => desk.settle(alloc).is_ok(),
        Deed::WriteA => desk.make_writable(alloc, &of.a).is_ok(),
        Deed::WriteB => desk.make_writable(alloc, &of.b).is_ok(),
        Deed::WriteC => desk.make_writable(alloc, &of.c).is_ok(),
    }
}

// After each deed: the entries and names that read the first owner of A; the cells that live and those that were made;
// the functions that were applied.
#[test]
fn entries_and_names_before_and_after(rt: HostRuntime) -> Result<(), Fail> {
    let rows = [
        (Deed::Begin, "rrjpn rrr", 9, 9, 0),
        (Deed::Settle, "rrjon rrr", 12, 12, 3),
        (Deed::Settle, "rrjon rrr", 12, 12, 3),
        (Deed::WriteA, "oooon orr", 24, 24, 6),
        (Deed::WriteA, "oooon orr", 24, 24, 6),
        (Deed::WriteB, "oooon oor", 27, 27, 6),
        (Deed::WriteC, "oooon oor", 27, 27, 6),
    ];
    let of = Five::new(rt.alloc())?;
    let mut desk = Desk::new(rt.alloc(), 100);
    let begun = five_entries(rt.alloc(), &mut desk, &of)?;
    assert!(rt; begun);
    let owner = owner_of(&desk, &of.a).ok_or("unset")?;
    for (deed, pictured, live, made, applied) in rows {
        let done = is_done(rt.alloc(), &mut desk, &of, deed);
        let seen = picture(rt.alloc(), &desk, &of, owner)?;
        let counts = desk.store.counts();
        assert!(rt; done && seen.as_str() == pictured, "{deed:?}: {seen}");
        assert!(rt;
            desk.store.live() == live && counts.made == made,
            "{deed:?}"
        );
        assert!(rt; counts.applied == applied, "{deed:?}");
    }
    Ok(())
}

// Whether in this room all entries settle; the write of A, if it finds no room for three cells more, does so where so
// many live; and this reads the first owner of A then.
fn is_so_within(
    alloc: Global,
    of: &Five,
    limit: u64,
    settles: bool,
    live: Option<u64>,
    pictured: &str,
) -> Result<bool, BeginFault> {
    let mut desk = Desk::new(alloc, limit);
    if !five_entries(alloc, &mut desk, of)? {
        return Ok(false);
    }
    let Some(owner) = owner_of(&desk, &of.a) else {
        return Ok(false);
    };
    let settled = desk.settle(alloc).is_ok();
    let full = match desk.make_writable(alloc, &of.a) {
        Err(BeginFault::WsFull { live, asked }) if asked == 3 => Some(live),
        _ => None,
    };
    let seen = picture(alloc, &desk, of, owner)?;
    Ok(settled == settles && full == live && seen.as_str() == pictured)
}

#[test]
fn room_is_wanting_at_each_point(rt: HostRuntime) -> Result<(), Fail> {
    let rows = [
        (11, false, None, "rrjpn rrr"),
        (12, true, Some(12), "rrjon rrr"),
        (14, true, Some(12), "rrjon rrr"),
        (15, true, Some(15), "orjon rrr"),
        (18, true, Some(18), "oojon rrr"),
        (21, true, Some(21), "oooon rrr"),
        (24, true, None, "oooon orr"),
    ];
    let of = Five::new(rt.alloc())?;
    for (limit, settles, live, pictured) in rows {
        let so = is_so_within(rt.alloc(), &of, limit, settles, live, pictured)?;
        assert!(rt; so, "{limit}");
    }
    Ok(())
}
