//! The calls through sinks that take a few bytes at a time, and fail at each push in turn.

ghost use Rattle.std.specs.Prelude.{◌≡◌, [], IfOk};
ghost use Rattle.drag_along.specs.Nodes.{leaf_shape};
ghost use Rattle.drag_along.specs.Lawful.{IsLawfulLeaf};
ghost use Rattle.array_store.specs.Stores.{StoreView};

use crate::{Cost, PrintFault, write_cost, write_desc, write_leaf, write_refusal, write_report};
use apl_base::{Cause, ErrorKind, Kind, Name, NoMemory, Place, Refusal, Shape};
use apl_compile::{Program, compile_script};
use apl_model::{Line, Script, Text};
use apl_outside::MemSink;
use array_desc::Desc;
use array_store::Store;
use drag_along::Leaf;
use sqlite_items::Items;
use std::alloc::{AllocError, Global};
use std::test::Fail;

// A sink that takes so many bytes at a push, and fails at one of them, or at none for 0.
fn sink(alloc: Global, most: usize, failing: u64) -> Result<MemSink, Fail> {
    let failing = Vec::from_slice(alloc, &[failing])?;
    Ok(MemSink::new(alloc, 4096, most.max(1), failing)?)
}

// The numbers from 0 up, in row-major order.
fn counting(shape: &Shape) -> Leaf
    ensures { (store : StoreView) → IsLawfulLeaf store result }
{
    Leaf::Gen {
        desc: Desc::whole(shape),
        kind: Kind::Num,
    }
}

// What a sink was given of the text of such an array, and whether that is all.
fn printed(alloc: Global, shape: &Shape, out: &mut MemSink) -> Result<bool, Fail> {
    let mut store = Store::new(alloc, 0);
    let leaf = counting(shape);
    match write_leaf(alloc, &leaf, &mut store, out) {
        Ok(()) => Ok(true),
        Err(PrintFault::OutFault) => Ok(false),
        Err(PrintFault::NoMemory) => Err(Fail::from(AllocError)),
    }
}

const TEXT: &[u8] = b"0  1  2\n3  4  5\n\n6  7  8\n9 10 11\n";

// Whether each sink that fails at a push has just the bytes of the pushes before, for so many bytes at a push.
fn is_cut_at_each_push(alloc: Global, most: usize) -> Result<bool, Fail> {
    let shape = Shape::of(alloc, &[2, 2, 3])?;
    let mut holds = true;
    for push in 1..40u64 {
        let mut out = sink(alloc, most, push)?;
        let whole = printed(alloc, &shape, &mut out)?;
        let before = (push - 1).saturating_mul(most as u64);
        let there = TEXT.len().min(before as usize);
        let cut = before < TEXT.len() as u64;
        let expected = if cut { there } else { TEXT.len() };
        holds = holds && whole != cut && out.bytes() == &TEXT[..expected];
    }
    Ok(holds)
}

#[test]
fn a_prefix_goes_out(rt: HostRuntime) -> Result<(), Fail> {
    for most in [1usize, 7, 64] {
        assert!(rt; is_cut_at_each_push(rt.alloc(), most)?);
    }
    Ok(())
}

// The program of a script of one line.
fn program(alloc: Global) -> Result<Program, NoMemory> {
    let mut lines = Items::new(alloc);
    lines.push(Line {
        number: 1,
        text: Text::of(String::from_str(alloc, "2+1÷0 ⍝ no")?),
        tokens: Items::new(alloc),
    })?;
    let items = Items::new(alloc);
    compile_script(alloc, Script { lines, items })
}

// The lines of the other calls, one after the other.
fn write_lines(alloc: Global, program: &Program, out: &mut MemSink) -> Result<(), PrintFault> {
    let refusal = Refusal {
        line: 3,
        column: 14,
        cause: Cause::DoubleName,
    };
    write_refusal(alloc, &refusal, out)?;
    let cost = Cost {
        line: 1,
        begun: 20,
        ops: 300,
    };
    write_cost(alloc, &cost, out)?;
    let name = Name::of(alloc, "∆B")?;
    let leaf = Leaf::Gen {
        desc: Desc::line(alloc, 3, -1, 3),
        kind: Kind::Num,
    };
    write_desc(alloc, &name, &leaf, out)?;
    let place = Place { line: 1, column: 4 };
    write_report(alloc, ErrorKind::Domain, place, program, out)
}

const LINES: [&str; 4] = [
    "REFUSED 3 14 DOUBLE NAME\n",
    "COST 1 20 300\n",
    "DESC ∆B G 3 ¯1 3\n",
    "DOMAIN ERROR\n      2+1÷0 ⍝ no\n         ^\n",
];

// How many bytes of the lines so many pushes take, each of so many bytes at most.
fn taken_by(pushes: usize, most: usize) -> usize {
    let mut left = pushes;
    let mut bytes = 0usize;
    for line in LINES {
        bytes = bytes.saturating_add(line.len().min(left.saturating_mul(most)));
        left = left.saturating_sub(line.len().div_ceil(most.max(1)));
    }
    bytes
}

// Whether each sink that fails at a push has just the bytes of the pushes before, for so many bytes at a push.
fn are_cut_at_each_push(alloc: Global, most: usize) -> Result<bool, Fail> {
    let program = program(alloc)?;
    let mut whole = String::new(alloc);
    for line in LINES {
        whole.push_str(line)?;
    }
    let mut holds = true;
    for push in 1..150usize {
        let mut out = sink(alloc, most, push as u64)?;
        let answer = write_lines(alloc, &program, &mut out);
        let taken = taken_by(push - 1, most).min(whole.len());
        let cut = taken < whole.len();
        let failed = answer == Err(PrintFault::OutFault);
        holds = holds && cut == failed && cut != answer.is_ok();
        holds = holds && out.bytes() == &whole.as_bytes()[..taken];
    }
    Ok(holds)
}

#[test]
fn a_front_of_the_lines_goes_out(rt: HostRuntime) -> Result<(), Fail> {
    for most in [1usize, 7, 64] {
        assert!(rt; are_cut_at_each_push(rt.alloc(), most)?);
    }
    Ok(())
}
