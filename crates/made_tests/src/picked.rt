//! Elements by their places, and beyond the ends.

use crate::calls::{Call, Places};
use crate::rows::{
    BACKWARDS, DOMAIN, INDEX, LENGTH, LETTER, LETTERS, LIMIT, MOST, NO_TEXT, NONE, RANK, ROW, Row,
    SEVEN, TABLE, TURNED, WORD,
};
use Argument::{Line, Places as Count, Same, Stored};
use Expected::{Numbers, Text};
use Kind::{Char, Num};
use Read::{Reversed, Whole};
use apl_base::Kind;
use stored_leaves::{Argument, Expected, Read};

const ONLY: Call = Call::Gather(Places::Only);

const ROWS: Call = Call::Gather(Places::First);

const COLUMNS: Call = Call::Gather(Places::Last);

const BOTH: Call = Call::Gather(Places::Both);

const AND_NINE: Call = Call::Gather(Places::AndNine);

/// Elements by their places, and beyond the ends.
pub const PICKED: [Row; 33] = [
    (
        ONLY,
        Stored(Num, &[3], &[1, 3, 2], Whole),
        Stored(Num, &[3], &[1, 2, 4], Whole),
        Numbers(&[3], &[1, 4, 2]),
    ),
    (
        ONLY,
        Same(2, &[2, 2]),
        WORD,
        Text(&[2, 2], &[66, 66, 66, 66]),
    ),
    (ROWS, Same(2, &[]), TABLE, Numbers(&[3], &[4, 5, 6])),
    (ROWS, Line(1, 2), TURNED, Numbers(&[2, 2], &[1, 4, 2, 5])),
    (
        COLUMNS,
        Stored(Num, &[2], &[2, 1], Whole),
        TABLE,
        Numbers(&[2, 2], &[2, 1, 5, 4]),
    ),
    (COLUMNS, NONE, TABLE, Numbers(&[2, 0], &[])),
    (
        BOTH,
        BACKWARDS,
        Count(&[3, 3], Reversed),
        Numbers(&[3, 3], &[6, 7, 8, 3, 4, 5, 0, 1, 2]),
    ),
    (BOTH, NO_TEXT, LETTERS, Text(&[0, 0], &[])),
    (ONLY, LETTER, TABLE, RANK),
    (ROWS, Same(9, &[]), ROW, RANK),
    (ONLY, WORD, ROW, DOMAIN),
    (AND_NINE, LETTER, TABLE, DOMAIN),
    (ONLY, Same(4, &[]), Line(1, 3), INDEX),
    (ONLY, Same(0, &[]), ROW, INDEX),
    (AND_NINE, MOST, TABLE, INDEX),
    (BOTH, Same(1, &[1048577]), TABLE, LIMIT),
    (
        Call::Overtake,
        Line(-5, 1),
        Line(1, 3),
        Numbers(&[5], &[0, 0, 1, 2, 3]),
    ),
    (
        Call::Overtake,
        Same(-3, &[]),
        Stored(Char, &[2], &[65, 66], Whole),
        Text(&[3], &[32, 65, 66]),
    ),
    (
        Call::Overtake,
        Line(4, 1),
        BACKWARDS,
        Numbers(&[4], &[1, 2, 3, 0]),
    ),
    (
        Call::Overtake,
        Stored(Num, &[2], &[2, -1], Whole),
        TABLE,
        Numbers(&[2, 1], &[3, 6]),
    ),
    (
        Call::Overtake,
        Stored(Num, &[2], &[-4, 1], Whole),
        TURNED,
        Numbers(&[4, 1], &[0, 1, 2, 3]),
    ),
    (
        Call::Overtake,
        Stored(Num, &[2], &[3, -3], Reversed),
        TABLE,
        Numbers(&[3, 3], &[0, 0, 0, 1, 2, 3, 4, 5, 6]),
    ),
    (
        Call::Overtake,
        Same(2, &[2]),
        SEVEN,
        Numbers(&[2, 2], &[7, 0, 0, 0]),
    ),
    (Call::Overtake, NO_TEXT, SEVEN, Numbers(&[], &[7])),
    (Call::Overtake, Same(0, &[]), ROW, Numbers(&[0], &[])),
    (Call::Overtake, Same(2, &[]), NO_TEXT, Text(&[2], &[32, 32])),
    (Call::Overtake, TABLE, ROW, RANK),
    (Call::Overtake, LETTERS, ROW, RANK),
    (Call::Overtake, WORD, ROW, LENGTH),
    (Call::Overtake, Same(1099511627777, &[2]), ROW, LENGTH),
    (Call::Overtake, LETTER, ROW, DOMAIN),
    (Call::Overtake, Same(1099511627777, &[]), ROW, LIMIT),
    (Call::Overtake, Same(-1099511627777, &[]), ROW, LIMIT),
];

/// Places that are counted from 0.
pub const FROM_ZERO: [Row; 6] = [
    (Call::Iota, NONE, Line(3, 1), Numbers(&[3], &[0, 1, 2])),
    (
        ONLY,
        Stored(Num, &[2], &[0, 2], Whole),
        WORD,
        Text(&[2], &[65, 67]),
    ),
    (ONLY, Same(3, &[]), Line(1, 3), INDEX),
    (ONLY, Same(-1, &[]), Line(1, 3), INDEX),
    (
        Call::GradeUp,
        NONE,
        Stored(Num, &[3], &[3, 1, 2], Whole),
        Numbers(&[3], &[1, 2, 0]),
    ),
    (
        Call::IndexOf,
        Stored(Num, &[3], &[3, 1, 2], Whole),
        Stored(Num, &[2], &[2, 9], Whole),
        Numbers(&[2], &[2, 3]),
    ),
];
