//! What statements take at most.

/// The line of a statement, its number among those that begin, and the most that it takes.
pub(crate) type Bounded = (u32, u64, u64);

/// A script, its status, what it prints, its statements, how many globals it sets, and the end of the trace.
pub(crate) type Counted = (
    &'static str,
    u8,
    &'static str,
    &'static [Bounded],
    usize,
    &'static str,
);

/// Of a statement for which no bound is promised.
const ANY: u64 = u64::MAX;

/// Selections, scalar functions of what is selected, shared cells, and cells that are written in place.
pub(crate) const COUNTED: [Counted; 10] = [
    ("3↑2×⍳1000000000000", 0, "2 4 6\n", &[(1, 1, 29)], 0, ""),
    (
        "A←⍳3\nB←⌽A",
        0,
        "",
        &[(1, 1, 17), (2, 2, 0)],
        2,
        "DESC A G 1 1 3\nDESC B G 3 ¯1 3\n",
    ),
    ("¯2↑⌽2-⍳1000000000", 0, "0 1\n", &[(1, 1, 23)], 0, ""),
    (
        "+/5↑(⍳1000000000)×⍳1000000000",
        0,
        "55\n",
        &[(1, 1, ANY)],
        0,
        "",
    ),
    (
        "A←10 20 30 40\nA[1 3]+1",
        0,
        "11 31\n",
        &[(1, 1, 20), (2, 2, 23)],
        1,
        "",
    ),
    (
        "A←2 2⍴⍳4\nB←⍉A\nA[1;2]←9\nB\nA",
        0,
        "1 3\n2 4\n1 9\n3 4\n",
        &[(1, 1, ANY), (2, 2, 0), (3, 3, ANY), (4, 4, 16), (5, 5, 16)],
        2,
        "",
    ),
    (
        "A←5 6 7\nB←A[2]\nA[2]←9\nB",
        0,
        "6\n",
        &[(1, 1, 15), (2, 2, 9), (3, 3, ANY), (4, 4, 4)],
        2,
        "",
    ),
    (
        "A←(⍳1000000)⌈3\n5↑⌽A×2",
        0,
        "2000000 1999998 1999996 1999994 1999992\n",
        &[(1, 1, 6000006), (2, 2, 36)],
        1,
        "",
    ),
    (
        "A←4 5 6\nA[1]←7\nA[2]←8\nB←⌽A",
        0,
        "",
        &[(1, 1, 15), (2, 2, ANY), (3, 3, 0), (4, 4, 0)],
        2,
        "",
    ),
    (
        "A←1 2\n1↑A÷0",
        1,
        "DOMAIN ERROR\n      1↑A÷0\n         ^\n",
        &[(1, 1, 10), (2, 2, ANY)],
        1,
        "",
    ),
];
