//! Sources and sinks that fail in mid-stream: each call in turn.

use crate::runs::{Course, Left, PLAIN, run};
use apl_run::{Status, Which};
use std::alloc::{AllocError, Global};
use std::process::Abort;
use std::test::Fail;

/// The scripts whose calls fail in turn: they print, report, call, and are refused.
const SCRIPTS: [&str; 7] = [
    "2+3",
    "A←1 2 3\n(A[1]←9)+A×2",
    "(⎕←1)+5÷0",
    "∇Z←F X\nA[1]←9\nZ←0\n∇\nA←1 2\n(F 0)+A×10\nA",
    "A←(1+2",
    "A+1\n7",
    "B←1\nA←2\n)VARS\n)ERASE B\n)VARS\n)FNS",
];

/// The scripts whose pushes of the trace fail in turn.
const TRACED: [&str; 5] = [
    "3↑2×⍳1000000000000",
    "A←⍳3\nB←⌽A",
    "A←4 5 6\nA[1]←7\nA[2]←8\nB←⌽A",
    "A←1 2\n1↑A÷0\nA",
    "∇Z←F X\nA[1]←9\nZ←0\n∇\nA←1 2\n(F 0)+A×10",
];

/// Whether this sink failed; what is printed and the trace are fronts of those of the whole run.
fn is_cut(rt: &impl Abort, left: &Left, whole: &Left, which: Which) -> bool {
    assert!(rt; whole.printed.bytes().starts_with(left.printed.bytes()));
    assert!(rt; whole.traced.bytes().starts_with(left.traced.bytes()));
    left.status == Status::WriteFault { which }
}

/// How many pushes of what is printed fail, one at each run, until the run is whole.
fn failing_pushes(
    rt: &impl Abort,
    alloc: Global,
    script: &str,
    piece: usize,
) -> Result<u64, AllocError> {
    let course = Course { piece, ..PLAIN };
    let whole = run(alloc, &[], script.as_bytes(), course)?;
    for push in 1..1000u64 {
        let left = run(alloc, &[], script.as_bytes(), Course { push, ..course })?;
        if !is_cut(rt, &left, &whole, Which::Out) {
            assert_eq!(rt; (left.code(), left.text()), (whole.code(), whole.text()));
            return Ok(push - 1);
        }
    }
    Ok(1000)
}

#[test]
fn each_push_fails_in_turn(rt: HostRuntime) -> Result<(), Fail> {
    for script in SCRIPTS {
        let whole = run(rt.alloc(), &[], script.as_bytes(), PLAIN)?;
        // A byte at a push: each push of the whole run fails.
        let failing = failing_pushes(&rt, rt.alloc(), script, 1)?;
        assert_eq!(rt; failing, whole.printed.bytes().len() as u64);
        let failing = failing_pushes(&rt, rt.alloc(), script, 64)?;
        assert!(rt; failing >= 1 && failing < 100);
    }
    // The second push of two.
    let second = Course {
        piece: 1,
        push: 2,
        ..PLAIN
    };
    let left = run(rt.alloc(), &[], b"2+3", second)?;
    assert_eq!(rt; (left.code(), left.text(), left.trace()), (6, "5", ""));
    Ok(())
}

#[test]
fn each_pull_fails_in_turn(rt: HostRuntime) -> Result<(), Fail> {
    for script in SCRIPTS {
        let bytes = script.as_bytes();
        // A byte at a pull, and the end.
        for pull in 1..bytes.len() as u64 + 2 {
            let course = Course {
                piece: 1,
                pull,
                ..PLAIN
            };
            let left = run(rt.alloc(), &[], bytes, course)?;
            assert_eq!(rt;
                (left.code(), left.text(), left.trace()),
                (7, "", "READ FAULT\n")
            );
        }
    }
    Ok(())
}

#[test]
fn each_push_of_the_trace_fails_in_turn(rt: HostRuntime) -> Result<(), Fail> {
    for script in TRACED {
        let course = Course { piece: 1, ..PLAIN };
        let whole = run(rt.alloc(), &["--trace"], script.as_bytes(), course)?;
        for line in 1..whole.traced.bytes().len() as u64 + 1 {
            let course = Course { line, ..course };
            let left = run(rt.alloc(), &["--trace"], script.as_bytes(), course)?;
            assert!(rt;
                is_cut(&rt, &left, &whole, Which::Trace),
                "{line} of {script}"
            );
        }
    }
    // Without a trace the last line alone is pushed there, and where it can't be the status stays.
    let silent = Course { line: 1, ..PLAIN };
    let left = run(rt.alloc(), &["--turns", "0"], b"2", silent)?;
    assert_eq!(rt; (left.code(), left.text(), left.trace()), (3, "", ""));
    Ok(())
}
