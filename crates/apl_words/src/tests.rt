//! The words of worked command lines, and the first lines of a workload, with ample memory.

use crate::{Options, WordsFault, read_words, workload};
use std::alloc::Global;
use std::test::Fail;

// What one command line gives.
fn read(alloc: Global, line: &[&str]) -> Result<Result<Options, WordsFault>, Fail> {
    let mut words = Vec::new(alloc);
    for word in line {
        words.push(String::from_str(alloc, word)?)?;
    }
    Ok(read_words(alloc, words.as_slice()))
}

// The options of these numbers.
fn options(turns: u64, traced: bool, workload: Option<u32>) -> Result<Options, WordsFault> {
    Ok(Options {
        turns,
        traced,
        workload,
    })
}

// Each command line of the table gives these options, or is refused.
#[test]
fn command_lines(rt: HostRuntime) -> Result<(), Fail> {
    let refused = Err(WordsFault::Refused);
    let table: [(&[&str], Result<Options, WordsFault>); 16] = [
        (&[], options(1_000_000, false, None)),
        (&["--turns", "5"], options(5, false, None)),
        (&["--turns=0"], options(0, false, None)),
        (
            &["--trace", "--turns", "1000000000000"],
            options(1_000_000_000_000, true, None),
        ),
        (
            &["--workload", "7", "--trace"],
            options(1_000_000, true, Some(7)),
        ),
        (
            &["--workload=999999"],
            options(1_000_000, false, Some(999_999)),
        ),
        (&["--turns", "1000000000001"], refused),
        (&["--turns", "99999999999999999999"], refused),
        (&["--turns", "05"], refused),
        (&["--turns", "+5"], refused),
        (&["--turns", ""], refused),
        (&["--turns"], refused),
        (&["--trace", "--trace"], refused),
        (&["--workload", "1000000"], refused),
        (&["--help"], refused),
        (&["script.apl"], refused),
    ];
    for (line, wanted) in table {
        assert_eq!(rt; read(rt.alloc(), line)?, wanted, "{line:?}");
    }
    Ok(())
}

// The workload of 7 begins so, and has 5,008 lines.
#[test]
fn the_workload_of_seven(rt: HostRuntime) -> Result<(), Fail> {
    let text = workload(rt.alloc(), 7)?;
    assert!(rt;
        text.as_slice()
            .starts_with("A←1000|⍳1000\nS←0\nB←0\nA[446]←445\n".as_bytes())
    );
    assert_eq!(rt;
        text.as_slice()
            .iter()
            .filter(|byte| **byte == b'\n')
            .count(),
        5008
    );
    Ok(())
}
