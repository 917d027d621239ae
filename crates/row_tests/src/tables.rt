//! The tables, row by row.

use crate::called::CALLED;
use crate::rows::{COMMANDS, Plain, REFUSED, SCALAR, WHOLES};
use crate::runs::{Left, PLAIN, run};
use crate::worded::{ROOM, WORDED, Worded};
use apl_base::MOST_BYTES;
use std::alloc::{AllocError, Global};
use std::process::Abort;
use std::test::Fail;

/// A script ends so, prints so much, and leaves such a trace.
fn assert_left(rt: &impl Abort, script: &str, left: &Left, code: u8, printed: &str, trace: &str) {
    assert_eq!(rt;
        (script, left.code(), left.text(), left.trace()),
        (script, code, printed, trace)
    );
}

/// With a trace a script ends so, prints so much, and so many of its statements end.
fn assert_ended(rt: &impl Abort, script: &str, left: &Left, code: u8, printed: &str, ended: usize) {
    assert_eq!(rt;
        (script, left.code(), left.text(), left.costs.len()),
        (script, code, printed, ended)
    );
}

/// Each script does what its row says, without words, and with a trace.
fn check_plain(rt: &impl Abort, alloc: Global, rows: &[Plain]) -> Result<(), AllocError> {
    for (script, code, printed, ended) in rows {
        let left = run(alloc, &[], script.as_bytes(), PLAIN)?;
        assert_left(rt, script, &left, *code, printed, "");
        let left = run(alloc, &["--trace"], script.as_bytes(), PLAIN)?;
        assert_ended(rt, script, &left, *code, printed, *ended);
    }
    Ok(())
}

#[test]
fn scalar_functions_names_and_commands(rt: HostRuntime) -> Result<(), Fail> {
    check_plain(&rt, rt.alloc(), &SCALAR)?;
    check_plain(&rt, rt.alloc(), &COMMANDS)?;
    check_plain(&rt, rt.alloc(), &REFUSED)?;
    Ok(())
}

#[test]
fn functions_of_whole_arrays(rt: HostRuntime) -> Result<(), Fail> {
    check_plain(&rt, rt.alloc(), &WHOLES)?;
    Ok(())
}

/// The statements end in the order that the row tells, as far as it tells them.
#[test]
fn calls_branches_and_budgets(rt: HostRuntime) -> Result<(), Fail> {
    for (words, script, code, printed, ended, first) in CALLED {
        let left = run(rt.alloc(), words, script.as_bytes(), PLAIN)?;
        assert_ended(&rt, script, &left, code, printed, ended);
        for (cost, entry) in left.costs.iter().zip(first) {
            assert_eq!(rt; (script, cost.line, cost.begun), (script, entry.0, entry.1));
        }
    }
    Ok(())
}

/// Each script with its words does what its row says.
fn check_worded(rt: &impl Abort, alloc: Global, rows: &[Worded]) -> Result<(), AllocError> {
    for (words, script, code, printed, trace) in rows {
        let left = run(alloc, words, script.as_bytes(), PLAIN)?;
        assert_left(rt, script, &left, *code, printed, trace);
    }
    Ok(())
}

#[test]
fn words(rt: HostRuntime) -> Result<(), Fail> {
    check_worded(&rt, rt.alloc(), &WORDED)?;
    // The same workload at each run, in the place of the script.
    for _ in 0..2 {
        let left = run(rt.alloc(), &["--workload", "7"], b"3.5", PLAIN)?;
        let printed = "164986\n504960\n996\n1000\n369\n";
        assert_left(&rt, "the workload", &left, 0, printed, "");
    }
    Ok(())
}

#[test]
fn room(rt: HostRuntime) -> Result<(), Fail> {
    check_worded(&rt, rt.alloc(), &ROOM)?;
    Ok(())
}

/// Without words there are a million turns.
#[test]
fn a_loop_without_end(rt: HostRuntime) -> Result<(), Fail> {
    let left = run(rt.alloc(), &[], "∇F\nL:→L\n∇\nF".as_bytes(), PLAIN)?;
    assert_left(&rt, "a loop", &left, 3, "", "TURNS SPENT\n");
    Ok(())
}

#[test]
fn bytes_and_lengths(rt: HostRuntime) -> Result<(), Fail> {
    let alloc = rt.alloc();
    let left = run(alloc, &[], b"2+\xff", PLAIN)?;
    assert_left(&rt, "a byte of no text", &left, 2, "REFUSED 1 3 UTF8\n", "");
    let blanks = vec![in alloc; b' '; 1001]?;
    let left = run(alloc, &[], blanks.as_slice(), PLAIN)?;
    let refusal = "REFUSED 1 1001 LINE LONG\n";
    assert_left(&rt, "a long line", &left, 2, refusal, "");
    let longer = vec![in alloc; b' '; MOST_BYTES + 1]?;
    let left = run(alloc, &[], longer.as_slice(), PLAIN)?;
    assert_left(&rt, "a long script", &left, 2, "REFUSED 0 0 TOO LONG\n", "");
    // The words come before the length.
    let left = run(alloc, &["word"], longer.as_slice(), PLAIN)?;
    assert_left(&rt, "a word", &left, 8, "", "WORDS REFUSED\n");
    Ok(())
}
