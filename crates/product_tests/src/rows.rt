//! Products of few elements, and their errors.

use crate::products::{Product, answer_of};
use Argument::{Line, Places, Same, Stored};
use Expected::{Error, Numbers, Text};
use Kind::{Char, Num};
use Product::{Inner, Reduce};
use Read::{Diagonal, Exchanged, Reversed, Second, Whole};
use apl_base::{Dya, ErrorKind, Kind};
use apl_model::Axis;
use array_store::Store;
use made_leaf::MadeFault;
use std::alloc::Global;
use std::test::Fail;
use stored_leaves::{Argument, Expected, Read, is_expected, placed};

// A product, its left and its right argument, and what is expected. A reduction takes the right one.
type Row = (Product, Argument, Argument, Expected);

const RANK: Expected = Error(ErrorKind::Rank);

const LENGTH: Expected = Error(ErrorKind::Length);

const DOMAIN: Expected = Error(ErrorKind::Domain);

const LIMIT: Expected = Error(ErrorKind::Limit);

const LAST: Axis = Axis::Last;

const FIRST: Axis = Axis::First;

const PLUS: Product = Reduce(Dya::Add, LAST);

const TIMES: Product = Inner(Dya::Add, Dya::Mul);

// No numbers; a word; a letter; 1 2 3, 4 5 6 in two rows, with its axes exchanged, its diagonal, its second row; 1 to 12 in
// three rows.
const NONE: Argument = Line(1, 0);

const WORD: Argument = Stored(Char, &[2], &[65, 66], Whole);

const LETTER: Argument = Stored(Char, &[1], &[65], Whole);

const TABLE: Argument = Stored(Num, &[2, 3], &[1, 2, 3, 4, 5, 6], Whole);

const TURNED: Argument = Stored(Num, &[2, 3], &[1, 2, 3, 4, 5, 6], Exchanged);

const CORNERS: Argument = Stored(Num, &[2, 3], &[1, 2, 3, 4, 5, 6], Diagonal);

const ROW: Argument = Stored(Num, &[2, 3], &[1, 2, 3, 4, 5, 6], Second);

const QUARTERS: Argument = Stored(
    Num,
    &[3, 4],
    &[1, 2, 3, 4, 5, 6, 7, 8, 9, 10, 11, 12],
    Whole,
);
// An array without elements whose rows are more than a shape has room for.
const WIDE: Argument = Places(&[0, 1099511627776, 2], Whole);

const ROWS: [Row; 41] = [
    (PLUS, NONE, Same(1, &[2, 0]), Numbers(&[2], &[0, 0])),
    (Reduce(Dya::Nand, LAST), NONE, NONE, DOMAIN),
    (
        Reduce(Dya::Nand, LAST),
        NONE,
        Same(1, &[0, 0]),
        Numbers(&[0], &[]),
    ),
    (
        Reduce(Dya::Sub, Axis::Numbered { k: 1 }),
        NONE,
        Stored(Num, &[2, 2], &[10, 20, 3, 4], Whole),
        Numbers(&[2], &[7, 16]),
    ),
    (
        Reduce(Dya::Add, Axis::Numbered { k: 3 }),
        NONE,
        Same(1, &[2, 2]),
        RANK,
    ),
    (
        Reduce(Dya::Add, Axis::Numbered { k: 0 }),
        NONE,
        Same(1, &[2, 2]),
        RANK,
    ),
    (
        Reduce(Dya::Add, Axis::Numbered { k: 1 }),
        NONE,
        Same(1, &[]),
        RANK,
    ),
    (
        Reduce(Dya::Sub, LAST),
        NONE,
        Line(1, 4),
        Numbers(&[], &[-2]),
    ),
    (PLUS, NONE, QUARTERS, Numbers(&[3], &[10, 26, 42])),
    (
        Reduce(Dya::Add, Axis::Numbered { k: 1 }),
        NONE,
        QUARTERS,
        Numbers(&[4], &[15, 18, 21, 24]),
    ),
    (PLUS, NONE, TURNED, Numbers(&[3], &[5, 7, 9])),
    (
        Reduce(Dya::Sub, FIRST),
        NONE,
        TURNED,
        Numbers(&[2], &[2, 5]),
    ),
    (
        Reduce(Dya::Sub, LAST),
        NONE,
        Stored(Num, &[4], &[1, 2, 3, 4], Reversed),
        Numbers(&[], &[2]),
    ),
    (PLUS, NONE, CORNERS, Numbers(&[], &[6])),
    (Reduce(Dya::Max, LAST), NONE, ROW, Numbers(&[], &[6])),
    (
        PLUS,
        NONE,
        Places(&[2, 3, 2], Reversed),
        Numbers(&[2, 3], &[13, 17, 21, 1, 5, 9]),
    ),
    (PLUS, NONE, LETTER, Text(&[], &[65])),
    (PLUS, NONE, WORD, DOMAIN),
    (Reduce(Dya::Eq, LAST), NONE, WORD, Numbers(&[], &[0])),
    (
        Reduce(Dya::Mul, LAST),
        NONE,
        Same(1000000000000000000, &[3]),
        DOMAIN,
    ),
    (Reduce(Dya::Nand, FIRST), NONE, WIDE, LIMIT),
    (Reduce(Dya::Nand, Axis::Numbered { k: 4 }), NONE, WIDE, RANK),
    (PLUS, NONE, WIDE, Numbers(&[0, 1099511627776], &[])),
    (
        TIMES,
        Stored(Num, &[2, 2], &[1, 2, 3, 4], Whole),
        Stored(Num, &[2, 2], &[5, 6, 7, 8], Whole),
        Numbers(&[2, 2], &[19, 22, 43, 50]),
    ),
    (TIMES, Line(1, 3), ROW, Numbers(&[], &[32])),
    (TIMES, TABLE, TURNED, Numbers(&[2, 2], &[14, 32, 32, 77])),
    (TIMES, CORNERS, TABLE, Numbers(&[3], &[21, 27, 33])),
    (TIMES, TABLE, ROW, Numbers(&[2], &[32, 77])),
    (TIMES, Same(2, &[]), ROW, Numbers(&[], &[30])),
    (TIMES, Same(2, &[1]), TABLE, Numbers(&[3], &[10, 14, 18])),
    (TIMES, TABLE, Same(2, &[]), Numbers(&[2], &[12, 30])),
    (
        Inner(Dya::Sub, Dya::Max),
        TABLE,
        Same(3, &[1]),
        Numbers(&[2], &[3, 5]),
    ),
    (TIMES, NONE, NONE, Numbers(&[], &[0])),
    (
        TIMES,
        Same(1, &[2, 0]),
        Same(1, &[0, 3]),
        Numbers(&[2, 3], &[0, 0, 0, 0, 0, 0]),
    ),
    (Inner(Dya::And, Dya::Eq), WORD, WORD, Numbers(&[], &[1])),
    (Inner(Dya::Or, Dya::Ne), WORD, LETTER, Numbers(&[], &[1])),
    (Inner(Dya::Nand, Dya::Add), NONE, NONE, DOMAIN),
    (TIMES, TABLE, TABLE, LENGTH),
    (TIMES, ROW, WORD, LENGTH),
    (TIMES, CORNERS, WORD, DOMAIN),
    (
        Inner(Dya::Add, Dya::Div),
        Same(1, &[2097152, 1]),
        Same(0, &[1, 2097152]),
        LIMIT,
    ),
];

// Whether a row holds, with ample memory.
fn holds(alloc: Global, row: &Row) -> Result<bool, MadeFault> {
    let mut store = Store::new(alloc, 64);
    let right = placed(alloc, &row.2, &mut store)?;
    let left = placed(alloc, &row.1, &mut store)?;
    let answer = answer_of(row.0, &left, &right, &mut store);
    Ok(is_expected(answer, &row.3, &mut store))
}

// The number of the first row that does not hold.
fn first_wrong(alloc: Global) -> Result<Option<usize>, MadeFault> {
    for (number, row) in ROWS.iter().enumerate() {
        if !holds(alloc, row)? {
            return Ok(Some(number));
        }
    }
    Ok(None)
}

#[test]
fn products_of_few_elements(rt: HostRuntime) -> Result<(), Fail> {
    assert_eq!(rt; first_wrong(rt.alloc())?, None);
    Ok(())
}
