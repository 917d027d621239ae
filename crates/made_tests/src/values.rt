//! Elements by their values.

use crate::calls::Call;
use crate::rows::{
    BACKWARDS, CORNERS, DOMAIN, LENGTH, LETTER, LETTERS, LIMIT, MOST, NO_TEXT, NONE, RANK, ROW,
    Row, SEVEN, TABLE, TURNED, WORD,
};
use Argument::{Line, Places as Count, Same, Stored};
use Expected::Numbers;
use Kind::{Char, Num};
use Read::{Exchanged, Reversed, Whole};
use apl_base::Kind;
use stored_leaves::{Argument, Expected, Read};

/// Elements found and put in order.
pub const FOUND: [Row; 23] = [
    (
        Call::IndexOf,
        Stored(Num, &[3], &[3, 1, 2], Whole),
        Stored(Num, &[2], &[2, 9], Whole),
        Numbers(&[2], &[3, 4]),
    ),
    (
        Call::IndexOf,
        WORD,
        Stored(Char, &[3], &[67, 65, 88], Whole),
        Numbers(&[3], &[3, 1, 4]),
    ),
    (Call::IndexOf, WORD, Line(65, 2), Numbers(&[2], &[4, 4])),
    (
        Call::IndexOf,
        Stored(Num, &[3], &[2, 1, 2], Whole),
        Same(2, &[]),
        Numbers(&[], &[1]),
    ),
    (
        Call::IndexOf,
        NONE,
        TABLE,
        Numbers(&[2, 3], &[1, 1, 1, 1, 1, 1]),
    ),
    (
        Call::IndexOf,
        Count(&[12], Reversed),
        TURNED,
        Numbers(&[3, 2], &[11, 8, 10, 7, 9, 6]),
    ),
    (
        Call::IndexOf,
        Stored(Num, &[12], &[5, 3, 5, 3, 1, 1, 4, 4, 2, 2, 9, 9], Whole),
        TABLE,
        Numbers(&[2, 3], &[5, 9, 2, 7, 1, 13]),
    ),
    (Call::IndexOf, Same(5, &[]), Same(5, &[]), RANK),
    (Call::IndexOf, LETTERS, ROW, RANK),
    (
        Call::Member,
        Stored(Num, &[2], &[1, 5], Whole),
        Line(5, 2),
        Numbers(&[2], &[0, 1]),
    ),
    (Call::Member, LETTER, WORD, Numbers(&[], &[1])),
    (Call::Member, Same(65, &[1]), WORD, Numbers(&[1], &[0])),
    (
        Call::Member,
        TURNED,
        CORNERS,
        Numbers(&[3, 2], &[1, 0, 0, 1, 0, 0]),
    ),
    (
        Call::Member,
        Line(-2, 14),
        Count(&[3, 4], Exchanged),
        Numbers(&[14], &[0, 0, 1, 1, 1, 1, 1, 1, 1, 1, 1, 1, 1, 1]),
    ),
    (Call::Member, NO_TEXT, NONE, Numbers(&[0], &[])),
    (
        Call::GradeUp,
        NONE,
        Stored(Num, &[3], &[3, 1, 2], Whole),
        Numbers(&[3], &[2, 3, 1]),
    ),
    (
        Call::GradeDown,
        NONE,
        Stored(Num, &[3], &[3, 1, 3], Whole),
        Numbers(&[3], &[1, 3, 2]),
    ),
    (
        Call::GradeUp,
        NONE,
        Stored(Num, &[6], &[1, 0, 1, 0, 1, 0], Reversed),
        Numbers(&[6], &[1, 3, 5, 2, 4, 6]),
    ),
    (Call::GradeDown, NONE, CORNERS, Numbers(&[2], &[2, 1])),
    (Call::GradeUp, NONE, NO_TEXT, Numbers(&[0], &[])),
    (Call::GradeUp, NONE, LETTERS, RANK),
    (Call::GradeDown, NONE, SEVEN, RANK),
    (Call::GradeDown, NONE, WORD, DOMAIN),
];

/// Digits, and the numbers that they make.
pub const DIGITS: [Row; 27] = [
    (
        Call::Encode,
        Stored(Num, &[3], &[24, 60, 60], Whole),
        Same(3723, &[]),
        Numbers(&[3], &[1, 2, 3]),
    ),
    (
        Call::Encode,
        Same(10, &[2]),
        Stored(Num, &[3], &[4, 23, 1], Reversed),
        Numbers(&[2, 3], &[0, 2, 0, 1, 3, 4]),
    ),
    (
        Call::Encode,
        Same(10, &[]),
        Same(-1, &[]),
        Numbers(&[], &[9]),
    ),
    (
        Call::Encode,
        Stored(Num, &[2], &[0, 10], Whole),
        Line(122, 2),
        Numbers(&[2, 2], &[12, 12, 2, 3]),
    ),
    (
        Call::Encode,
        Stored(Num, &[2], &[0, 10], Whole),
        Line(-1, 2),
        DOMAIN,
    ),
    (
        Call::Encode,
        Same(-10, &[2]),
        Same(-23, &[]),
        Numbers(&[2], &[7, 7]),
    ),
    (
        Call::Encode,
        Stored(Num, &[2], &[10, 0], Whole),
        Same(23, &[]),
        Numbers(&[2], &[0, 23]),
    ),
    (Call::Encode, NO_TEXT, ROW, Numbers(&[0, 3], &[])),
    (Call::Encode, ROW, NO_TEXT, Numbers(&[3, 0], &[])),
    (Call::Encode, TABLE, LETTER, RANK),
    (Call::Encode, MOST, WORD, LIMIT),
    (Call::Encode, WORD, ROW, DOMAIN),
    (Call::Encode, SEVEN, LETTER, DOMAIN),
    (
        Call::Decode,
        Stored(Num, &[3], &[24, 60, 60], Whole),
        Line(1, 3),
        Numbers(&[], &[3723]),
    ),
    (Call::Decode, Same(10, &[]), BACKWARDS, Numbers(&[], &[123])),
    (Call::Decode, ROW, Same(1, &[1]), Numbers(&[], &[37])),
    (
        Call::Decode,
        Same(-2, &[1]),
        Stored(Num, &[3], &[1, -2, 3], Whole),
        Numbers(&[], &[11]),
    ),
    (Call::Decode, Same(2, &[]), NONE, Numbers(&[], &[0])),
    (Call::Decode, NO_TEXT, SEVEN, Numbers(&[], &[0])),
    (Call::Decode, TABLE, WORD, RANK),
    (Call::Decode, ROW, LETTERS, RANK),
    (Call::Decode, CORNERS, WORD, LENGTH),
    (Call::Decode, NONE, CORNERS, LENGTH),
    (Call::Decode, WORD, ROW, DOMAIN),
    (Call::Decode, SEVEN, LETTER, DOMAIN),
    (
        Call::Decode,
        Same(1000000000000000000, &[]),
        Same(1, &[3]),
        DOMAIN,
    ),
    (
        Call::Decode,
        Same(100000000000000000, &[]),
        Same(10, &[2]),
        Numbers(&[], &[1000000000000000010]),
    ),
];
