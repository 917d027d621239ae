//! Shapes and vectors.

use crate::calls::Call;
use crate::rows::{
    BACKWARDS, CORNERS, DOMAIN, LENGTH, LETTER, LETTERS, LIMIT, MOST, NO_TEXT, NONE, RANK, ROW,
    Row, SEVEN, TABLE, TURNED, WORD,
};
use Argument::{Line, Places as Count, Same, Stored};
use Expected::{Numbers, Text};
use Kind::Num;
use Read::{Reversed, Whole};
use apl_base::Kind;
use stored_leaves::{Argument, Expected, Read};

/// Shapes and vectors.
pub const SHAPES: [Row; 46] = [
    (Call::Iota, NONE, Line(3, 1), Numbers(&[3], &[1, 2, 3])),
    (Call::Iota, NONE, Same(0, &[]), Numbers(&[0], &[])),
    (
        Call::Iota,
        NONE,
        SEVEN,
        Numbers(&[7], &[1, 2, 3, 4, 5, 6, 7]),
    ),
    (Call::Iota, NONE, LETTERS, RANK),
    (Call::Iota, NONE, WORD, LENGTH),
    (Call::Iota, NONE, NONE, LENGTH),
    (Call::Iota, NONE, LETTER, DOMAIN),
    (Call::Iota, NONE, Line(-1, 1), DOMAIN),
    (Call::Iota, NONE, Line(1099511627777, 1), LIMIT),
    (Call::ShapeOf, NONE, LETTER, Numbers(&[0], &[])),
    (Call::ShapeOf, NONE, WORD, Numbers(&[1], &[3])),
    (Call::ShapeOf, NONE, TURNED, Numbers(&[2], &[3, 2])),
    (
        Call::ShapeOf,
        NONE,
        Count(&[2, 0, 3], Whole),
        Numbers(&[3], &[2, 0, 3]),
    ),
    (Call::Ravel, NONE, TABLE, Numbers(&[6], &[1, 2, 3, 4, 5, 6])),
    (
        Call::Ravel,
        NONE,
        TURNED,
        Numbers(&[6], &[1, 4, 2, 5, 3, 6]),
    ),
    (Call::Ravel, NONE, CORNERS, Numbers(&[2], &[1, 5])),
    (Call::Ravel, NONE, ROW, Numbers(&[3], &[4, 5, 6])),
    (Call::Ravel, NONE, BACKWARDS, Numbers(&[3], &[1, 2, 3])),
    (Call::Ravel, NONE, SEVEN, Numbers(&[1], &[7])),
    (Call::Ravel, NONE, LETTERS, Text(&[4], &[65, 66, 67, 68])),
    (
        Call::Ravel,
        NONE,
        Count(&[2, 2], Reversed),
        Numbers(&[4], &[2, 3, 0, 1]),
    ),
    (
        Call::Reshape,
        Line(2, 2),
        ROW,
        Numbers(&[2, 3], &[4, 5, 6, 4, 5, 6]),
    ),
    (
        Call::Reshape,
        Same(2, &[2]),
        TURNED,
        Numbers(&[2, 2], &[1, 4, 2, 5]),
    ),
    (
        Call::Reshape,
        Same(2, &[2]),
        Stored(Num, &[4], &[10, -3, 4, 500], Whole),
        Numbers(&[2, 2], &[10, -3, 4, 500]),
    ),
    (
        Call::Reshape,
        Line(5, 1),
        WORD,
        Text(&[5], &[65, 66, 67, 65, 66]),
    ),
    (Call::Reshape, Same(0, &[]), NONE, Numbers(&[0], &[])),
    (Call::Reshape, NO_TEXT, ROW, Numbers(&[], &[4])),
    (Call::Reshape, TABLE, NONE, RANK),
    (Call::Reshape, LETTERS, ROW, RANK),
    (Call::Reshape, Same(2, &[]), NONE, LENGTH),
    (Call::Reshape, Same(1099511627777, &[2]), NONE, LENGTH),
    (Call::Reshape, WORD, NONE, DOMAIN),
    (Call::Reshape, Line(-1, 1), NONE, DOMAIN),
    (Call::Reshape, Line(-1, 1), Same(2, &[]), DOMAIN),
    (
        Call::Reshape,
        Stored(Num, &[2], &[-1, 1099511627777], Whole),
        ROW,
        DOMAIN,
    ),
    (Call::Reshape, Same(1099511627777, &[]), ROW, LIMIT),
    (Call::Reshape, Same(1, &[9]), ROW, LIMIT),
    (
        Call::Catenate,
        Line(1, 2),
        Same(3, &[]),
        Numbers(&[3], &[1, 2, 3]),
    ),
    (
        Call::Catenate,
        CORNERS,
        BACKWARDS,
        Numbers(&[5], &[1, 5, 1, 2, 3]),
    ),
    (Call::Catenate, LETTER, WORD, Text(&[4], &[65, 65, 66, 67])),
    (Call::Catenate, NO_TEXT, SEVEN, Numbers(&[1], &[7])),
    (Call::Catenate, NO_TEXT, NONE, Text(&[0], &[])),
    (Call::Catenate, NONE, NO_TEXT, Numbers(&[0], &[])),
    (Call::Catenate, TABLE, LETTER, RANK),
    (Call::Catenate, LETTER, MOST, DOMAIN),
    (Call::Catenate, MOST, SEVEN, LIMIT),
];
