//! The table: steps, what is expected of the newest entry afterwards, and what they count at most.

use crate::desks::Step;
use Argument::{Line, Places, Same, Stored};
use ErrorKind::{Domain, Index as BadIndex, Length, Rank};
use Expected::{Array, Fault};
use Kind::{Char, Num};
use Read::{Reversed, Whole};
use Step::{
    Index, Iota, Number, One, Outer, Put, Reduce, Reverse, Skip, Take, Transpose, TransposeBy, Two,
};
use apl_base::{Dya, ErrorKind, Kind, Mon};
use apl_model::Axis;
use stored_leaves::{Argument, Read};

/// The lengths and the cells of an array, or an error at the step of a number, which is counted from 1.
#[derive(Clone, Copy, Debug)]
pub enum Expected {
    Array(&'static [u64], &'static [i64]),
    Fault(ErrorKind, u32),
}

/// Steps, what is expected, and what is counted at most: the cells that are fetched and made and the functions applied.
pub type Row = (&'static [Step], Expected, u64);

// No bound on what is counted.
const ANY: u64 = u64::MAX;
// A thousand million.
const MANY: Step = Number(1000000000);
// 1 2 3, 4 5 6 in two rows; 1 2, 3 4; 10 20 30 40; a word; no numbers.
const TABLE: Step = Put(Stored(Num, &[2, 3], &[1, 2, 3, 4, 5, 6], Whole));

const SQUARE: Step = Put(Stored(Num, &[2, 2], &[1, 2, 3, 4], Whole));

const TENS: Step = Put(Stored(Num, &[4], &[10, 20, 30, 40], Whole));

const WORD: Step = Put(Stored(Char, &[2], &[65, 66], Whole));

const NONE: Step = Put(Line(1, 0));

const THIRD: Axis = Axis::Numbered { k: 3 };

/// Selections.
pub const SELECTIONS: [Row; 34] = [
    (&[Number(3), Iota], Array(&[3], &[1, 2, 3]), 17),
    (
        &[Put(Line(1, 3)), Reverse(Axis::Last)],
        Array(&[3], &[3, 2, 1]),
        0,
    ),
    (&[SQUARE, Transpose], Array(&[2, 2], &[1, 3, 2, 4]), 8),
    (
        &[TABLE, Reverse(Axis::First)],
        Array(&[2, 3], &[4, 5, 6, 1, 2, 3]),
        12,
    ),
    (
        &[TABLE, Reverse(Axis::Numbered { k: 2 })],
        Array(&[2, 3], &[3, 2, 1, 6, 5, 4]),
        12,
    ),
    (
        &[TABLE, TABLE, Two(Dya::Add), Reverse(Axis::First)],
        Array(&[2, 3], &[8, 10, 12, 2, 4, 6]),
        ANY,
    ),
    (
        &[
            Number(1000000000000),
            Iota,
            Number(2),
            Two(Dya::Mul),
            Number(3),
            Take,
        ],
        Array(&[3], &[2, 4, 6]),
        29,
    ),
    (
        &[
            MANY,
            Iota,
            Number(2),
            Two(Dya::Sub),
            Reverse(Axis::Last),
            Number(-2),
            Take,
        ],
        Array(&[2], &[0, 1]),
        29,
    ),
    (
        &[
            MANY,
            Iota,
            MANY,
            Iota,
            Two(Dya::Mul),
            Number(5),
            Take,
            Reduce(Dya::Add),
        ],
        Array(&[], &[55]),
        29,
    ),
    (
        &[
            Number(1000000001),
            Iota,
            Number(1000000001),
            Iota,
            Two(Dya::Mul),
            Number(5),
            Take,
            Reduce(Dya::Add),
        ],
        Array(&[], &[55]),
        29,
    ),
    (
        &[
            MANY,
            Iota,
            MANY,
            Iota,
            Two(Dya::Max),
            One(Mon::Minus),
            Number(-1),
            Take,
        ],
        Array(&[1], &[-1000000000]),
        29,
    ),
    (
        &[
            Number(1000000),
            Iota,
            Number(1000000),
            Iota,
            Outer(Dya::Mul),
            Put(Same(2, &[2])),
            Take,
        ],
        Array(&[2, 2], &[1, 2, 2, 4]),
        29,
    ),
    (
        &[Put(Line(1, 3)), Number(-5), Take],
        Array(&[5], &[0, 0, 1, 2, 3]),
        ANY,
    ),
    (&[Put(Line(1, 2)), Number(5), Skip], Array(&[0], &[]), ANY),
    (
        &[TABLE, Put(Stored(Num, &[2], &[2, -1], Whole)), Take],
        Array(&[2, 1], &[3, 6]),
        ANY,
    ),
    (
        &[TABLE, Put(Stored(Num, &[2], &[-1, 1], Whole)), Skip],
        Array(&[1, 2], &[2, 3]),
        ANY,
    ),
    (&[WORD, Number(-3), Take], Array(&[3], &[32, 65, 66]), ANY),
    (
        &[Number(5), Put(Same(1, &[2])), Take],
        Array(&[1, 1], &[5]),
        ANY,
    ),
    (&[Number(5), NONE, TransposeBy], Array(&[], &[5]), ANY),
    (
        &[TABLE, Put(Same(1, &[2])), TransposeBy],
        Array(&[2], &[1, 5]),
        ANY,
    ),
    (
        &[TABLE, Put(Line(1, 2)), TransposeBy],
        Array(&[2, 3], &[1, 2, 3, 4, 5, 6]),
        ANY,
    ),
    (
        &[TABLE, Put(Stored(Num, &[2], &[2, 1], Whole)), TransposeBy],
        Array(&[3, 2], &[1, 4, 2, 5, 3, 6]),
        ANY,
    ),
    (
        &[Put(Places(&[2, 3], Reversed)), Transpose],
        Array(&[3, 2], &[3, 0, 4, 1, 5, 2]),
        0,
    ),
    (
        &[
            Put(Stored(Num, &[3], &[1, 2, 0], Whole)),
            Number(6),
            Two(Dya::Div),
            Number(2),
            Take,
        ],
        Fault(Domain, 3),
        ANY,
    ),
    (&[TABLE, Reverse(THIRD)], Fault(Rank, 2), ANY),
    (
        &[Number(0), Number(1), Two(Dya::Div), TABLE, Reverse(THIRD)],
        Fault(Domain, 3),
        ANY,
    ),
    (&[TABLE, SQUARE, TransposeBy], Fault(Rank, 3), ANY),
    (
        &[TABLE, Put(Line(1, 3)), TransposeBy],
        Fault(Length, 3),
        ANY,
    ),
    (
        &[TABLE, Put(Stored(Num, &[2], &[1, 3], Whole)), TransposeBy],
        Fault(Domain, 3),
        ANY,
    ),
    (&[TABLE, WORD, TransposeBy], Fault(Domain, 3), ANY),
    (&[TENS, SQUARE, Skip], Fault(Rank, 3), ANY),
    (&[TENS, WORD, Skip], Fault(Length, 3), ANY),
    (&[TABLE, WORD, Take], Fault(Domain, 3), ANY),
    (
        &[Number(0), Number(1), Two(Dya::Div), TENS, WORD, Skip],
        Fault(Domain, 3),
        ANY,
    ),
];

/// Functions that wait, and where the first fault is.
pub const WAITING: [Row; 6] = [
    (
        &[NONE, Number(0), Number(1), Two(Dya::Div), Two(Dya::Add)],
        Fault(Domain, 4),
        ANY,
    ),
    (
        &[
            Number(0),
            Number(2),
            Two(Dya::Div),
            Number(0),
            Number(1),
            Two(Dya::Div),
            Two(Dya::Add),
        ],
        Fault(Domain, 3),
        ANY,
    ),
    (
        &[
            Number(0),
            Number(1),
            Two(Dya::Div),
            Put(Same(2, &[2])),
            Iota,
        ],
        Fault(Domain, 3),
        ANY,
    ),
    (
        &[
            Put(Stored(Num, &[2], &[1, 0], Whole)),
            Number(1),
            Two(Dya::Div),
            Number(2),
            Put(Stored(Num, &[2], &[7, 6], Whole)),
            Two(Dya::Div),
            Two(Dya::Add),
        ],
        Fault(Domain, 3),
        ANY,
    ),
    (
        &[Put(Line(1, 2)), SQUARE, Two(Dya::Add)],
        Fault(Rank, 3),
        ANY,
    ),
    (
        &[Put(Line(1, 3)), WORD, Two(Dya::Eq)],
        Fault(Length, 3),
        ANY,
    ),
];

/// Subscripts.
pub const SUBSCRIPTS: [Row; 16] = [
    (
        &[Number(2), TABLE, Index(&[true, false])],
        Array(&[3], &[4, 5, 6]),
        ANY,
    ),
    (
        &[
            Put(Stored(Num, &[2], &[2, 1], Whole)),
            TABLE,
            Index(&[false, true]),
        ],
        Array(&[2, 2], &[2, 1, 5, 4]),
        ANY,
    ),
    (
        &[TABLE, Index(&[false, false])],
        Array(&[2, 3], &[1, 2, 3, 4, 5, 6]),
        12,
    ),
    (
        &[Number(3), Number(2), TABLE, Index(&[true, true])],
        Array(&[], &[6]),
        ANY,
    ),
    (
        &[
            Number(1),
            Put(Stored(Num, &[2], &[1, 3], Whole)),
            TENS,
            Index(&[true]),
            Two(Dya::Add),
        ],
        Array(&[2], &[11, 31]),
        ANY,
    ),
    (
        &[
            Put(Stored(Num, &[3], &[1, 3, 2], Whole)),
            Put(Stored(Num, &[3], &[1, 2, 4], Whole)),
            Index(&[true]),
        ],
        Array(&[3], &[1, 4, 2]),
        ANY,
    ),
    (
        &[
            Number(1000000000),
            MANY,
            Iota,
            Number(2),
            Two(Dya::Mul),
            Index(&[true]),
        ],
        Array(&[], &[2000000000]),
        29,
    ),
    (&[NONE, TENS, Index(&[true])], Array(&[0], &[]), ANY),
    (
        &[Number(4), Put(Line(1, 3)), Index(&[true])],
        Fault(BadIndex, 3),
        ANY,
    ),
    (&[Number(0), TENS, Index(&[true])], Fault(BadIndex, 3), ANY),
    (
        &[Number(9), WORD, TABLE, Index(&[true])],
        Fault(Rank, 4),
        ANY,
    ),
    (
        &[Number(9), WORD, TABLE, Index(&[true, true])],
        Fault(Domain, 4),
        ANY,
    ),
    (
        &[WORD, Number(9), TABLE, Index(&[true, true])],
        Fault(Domain, 4),
        ANY,
    ),
    (
        &[Number(9), Number(1), TABLE, Index(&[true, true])],
        Fault(BadIndex, 4),
        ANY,
    ),
    (
        &[
            Number(0),
            Number(1),
            Two(Dya::Div),
            Number(9),
            TENS,
            Index(&[true]),
        ],
        Fault(Domain, 3),
        ANY,
    ),
    (
        &[
            Number(0),
            TENS,
            Two(Dya::Div),
            Number(9),
            TENS,
            Index(&[true]),
        ],
        Fault(Domain, 3),
        ANY,
    ),
];
