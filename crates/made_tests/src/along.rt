//! Elements along an axis.

use crate::calls::Call;
use crate::rows::{
    BACKWARDS, CORNERS, DOMAIN, LENGTH, LETTER, LETTERS, LIMIT, MOST, NO_TEXT, NONE, RANK, ROW,
    Row, SEVEN, TABLE, TURNED, WORD,
};
use Argument::{Line, Places as Count, Same, Stored};
use Expected::{Numbers, Text};
use Kind::{Char, Num};
use Read::{Reversed, Whole};
use apl_base::Kind;
use apl_model::Axis;
use stored_leaves::{Argument, Expected, Read};

const LAST: Axis = Axis::Last;

const FIRST: Axis = Axis::First;

const SECOND: Axis = Axis::Numbered { k: 2 };

/// Elements rotated along an axis.
pub const ROTATED: [Row; 18] = [
    (
        Call::Rotate(LAST),
        Same(1, &[]),
        BACKWARDS,
        Numbers(&[3], &[2, 3, 1]),
    ),
    (
        Call::Rotate(LAST),
        Same(-1, &[1]),
        ROW,
        Numbers(&[3], &[6, 4, 5]),
    ),
    (
        Call::Rotate(FIRST),
        Same(9999999999999, &[]),
        WORD,
        Text(&[3], &[65, 66, 67]),
    ),
    (
        Call::Rotate(LAST),
        Line(1, 2),
        TABLE,
        Numbers(&[2, 3], &[2, 3, 1, 6, 4, 5]),
    ),
    (
        Call::Rotate(LAST),
        Line(-1, 3),
        TURNED,
        Numbers(&[3, 2], &[4, 1, 2, 5, 6, 3]),
    ),
    (
        Call::Rotate(FIRST),
        Same(1, &[1, 1]),
        TABLE,
        Numbers(&[2, 3], &[4, 5, 6, 1, 2, 3]),
    ),
    (
        Call::Rotate(FIRST),
        Line(0, 3),
        TABLE,
        Numbers(&[2, 3], &[1, 5, 3, 4, 2, 6]),
    ),
    (
        Call::Rotate(Axis::Numbered { k: 1 }),
        Line(0, 3),
        TABLE,
        Numbers(&[2, 3], &[1, 5, 3, 4, 2, 6]),
    ),
    (
        Call::Rotate(SECOND),
        Same(1, &[2]),
        LETTERS,
        Text(&[2, 2], &[66, 65, 68, 67]),
    ),
    (Call::Rotate(LAST), SEVEN, Same(5, &[]), Numbers(&[], &[5])),
    (Call::Rotate(LAST), ROW, NONE, RANK),
    (Call::Rotate(SECOND), SEVEN, ROW, RANK),
    (Call::Rotate(SECOND), LETTER, Same(5, &[]), RANK),
    (Call::Rotate(LAST), WORD, BACKWARDS, RANK),
    (Call::Rotate(LAST), ROW, TABLE, LENGTH),
    (Call::Rotate(LAST), WORD, TABLE, LENGTH),
    (Call::Rotate(FIRST), WORD, TABLE, DOMAIN),
    (Call::Rotate(LAST), LETTER, ROW, DOMAIN),
];

/// Elements kept, and spaced, along an axis.
pub const KEPT: [Row; 29] = [
    (
        Call::Compress(Axis::Numbered { k: 1 }),
        Stored(Num, &[3], &[1, 0, 1], Whole),
        Count(&[3, 4], Whole),
        Numbers(&[2, 4], &[0, 1, 2, 3, 8, 9, 10, 11]),
    ),
    (
        Call::Compress(LAST),
        Stored(Num, &[3], &[1, 1, 0], Reversed),
        TABLE,
        Numbers(&[2, 2], &[2, 3, 5, 6]),
    ),
    (
        Call::Compress(FIRST),
        Line(0, 2),
        TABLE,
        Numbers(&[1, 3], &[4, 5, 6]),
    ),
    (
        Call::Compress(LAST),
        Same(1, &[]),
        CORNERS,
        Numbers(&[2], &[1, 5]),
    ),
    (Call::Compress(LAST), Same(0, &[1]), WORD, Text(&[0], &[])),
    (
        Call::Compress(LAST),
        Stored(Num, &[3], &[1, 0, 1], Whole),
        SEVEN,
        Numbers(&[2], &[7, 7]),
    ),
    (Call::Compress(LAST), NO_TEXT, NONE, Numbers(&[0], &[])),
    (Call::Compress(LAST), TABLE, ROW, RANK),
    (Call::Compress(SECOND), CORNERS, ROW, RANK),
    (
        Call::Compress(Axis::Numbered { k: 1 }),
        Same(2, &[]),
        SEVEN,
        RANK,
    ),
    (Call::Compress(LAST), CORNERS, ROW, LENGTH),
    (
        Call::Compress(LAST),
        Stored(Char, &[2], &[65, 66], Whole),
        ROW,
        LENGTH,
    ),
    (Call::Compress(LAST), WORD, ROW, DOMAIN),
    (Call::Compress(LAST), Same(2, &[]), ROW, DOMAIN),
    (
        Call::Expand(LAST),
        Stored(Num, &[3], &[1, 0, 1], Whole),
        Stored(Num, &[2], &[5, 7], Whole),
        Numbers(&[3], &[5, 0, 7]),
    ),
    (
        Call::Expand(LAST),
        Stored(Num, &[4], &[1, 0, 1, 1], Whole),
        WORD,
        Text(&[4], &[65, 32, 66, 67]),
    ),
    (
        Call::Expand(FIRST),
        Stored(Num, &[3], &[1, 0, 1], Whole),
        TABLE,
        Numbers(&[3, 3], &[1, 2, 3, 0, 0, 0, 4, 5, 6]),
    ),
    (
        Call::Expand(SECOND),
        Stored(Num, &[3], &[1, 1, 0], Reversed),
        TURNED,
        Numbers(&[3, 3], &[0, 1, 4, 0, 2, 5, 0, 3, 6]),
    ),
    (
        Call::Expand(LAST),
        Stored(Num, &[3], &[1, 0, 1], Whole),
        SEVEN,
        Numbers(&[3], &[7, 0, 7]),
    ),
    (
        Call::Expand(LAST),
        Same(0, &[2]),
        NONE,
        Numbers(&[2], &[0, 0]),
    ),
    (Call::Expand(LAST), LETTERS, ROW, RANK),
    (Call::Expand(SECOND), WORD, ROW, RANK),
    (Call::Expand(LAST), Same(1, &[2]), ROW, LENGTH),
    (Call::Expand(LAST), Same(1, &[2]), MOST, LENGTH),
    (
        Call::Expand(LAST),
        Stored(Num, &[3], &[2, 0, 1], Whole),
        ROW,
        DOMAIN,
    ),
    (Call::Expand(LAST), WORD, ROW, DOMAIN),
    (
        Call::Expand(FIRST),
        Line(0, 2),
        Count(&[1, 1099511627776], Whole),
        LIMIT,
    ),
    (
        Call::Expand(FIRST),
        Line(1, 2),
        Count(&[1, 1099511627776], Whole),
        DOMAIN,
    ),
    (Call::Expand(LAST), Same(1, &[]), SEVEN, Numbers(&[1], &[7])),
];
