//! Scripts with words, and scripts that need much room.

/// Words, a script, its status, what it prints, and the trace.
pub(crate) type Worded = (
    &'static [&'static str],
    &'static str,
    u8,
    &'static str,
    &'static str,
);

/// Turns, words that are refused, and a refused script, which leaves no trace.
pub(crate) const WORDED: [Worded; 16] = [
    (&["--turns", "10"], "∇F\nL:→L\n∇\nF", 3, "", "TURNS SPENT\n"),
    (&["--turns", "0"], "2+3", 3, "", "TURNS SPENT\n"),
    (&["--turns", "0"], "", 0, "", ""),
    (&["--turns", "1"], "2+3\n4", 3, "5\n", "TURNS SPENT\n"),
    (&["--turns=2"], "2+3\n4", 0, "5\n4\n", ""),
    (
        &["--turns", "15"],
        "∇Z←SUM N;I\nZ←0\nI←1\nL:Z←Z+I\nI←I+1\n→L×I≤N\n∇\nSUM 4",
        0,
        "10\n",
        "",
    ),
    (
        &["--turns", "14"],
        "∇Z←SUM N;I\nZ←0\nI←1\nL:Z←Z+I\nI←I+1\n→L×I≤N\n∇\nSUM 4",
        3,
        "",
        "TURNS SPENT\n",
    ),
    (&["--turns", "x"], "2+3", 8, "", "WORDS REFUSED\n"),
    (&["--turns"], "2+3", 8, "", "WORDS REFUSED\n"),
    (
        &["--turns", "1000000000001"],
        "2+3",
        8,
        "",
        "WORDS REFUSED\n",
    ),
    (&["--turns", "1000000000000"], "2+3", 0, "5\n", ""),
    (&["--workload", "1000000"], "2+3", 8, "", "WORDS REFUSED\n"),
    (
        &["--turns=1", "--workload=7", "--turns", "2"],
        "2+3",
        8,
        "",
        "WORDS REFUSED\n",
    ),
    (&["--help"], "2+3", 8, "", "WORDS REFUSED\n"),
    (&["2+3"], "2+3", 8, "", "WORDS REFUSED\n"),
    (&["--trace"], "3.5", 2, "REFUSED 1 1 NUMBER\n", ""),
];

/// Scripts that need much room: 16777216 cells fit, and no more. What is read of a large array holds no room for it.
pub(crate) const ROOM: [Worded; 5] = [
    (&[], "A←(⍳20000000)*2", 4, "", "WS FULL 0 20000000\n"),
    (&[], "A←(⍳16777216)*2", 0, "", ""),
    (
        &[],
        "A←(⍳16777216)*2\nB←A\nA[1]←5",
        4,
        "",
        "WS FULL 16777216 16777216\n",
    ),
    (
        &[],
        "A←(⍳2000000)*2\n3↑⌽A",
        0,
        "4000000000000 3999996000001 3999992000004\n",
        "",
    ),
    (
        &[],
        "A←(⍳2000000)*2\nB←A[1]\nA←(⍳2000000)*2\nC←A[1]\nA←(⍳2000000)*2\nD←A[1]\nA←(⍳2000000)*2\nE←A[1]\nA←(⍳2000000)*2\nF←A[1]\nA←(⍳2000000)*2\nG←A[1]\nA←(⍳2000000)*2\nH←A[1]\nA←(⍳2000000)*2\nI←A[1]\nA←(⍳2000000)*2\nJ←A[1]\nB+J",
        0,
        "2\n",
        "",
    ),
];
