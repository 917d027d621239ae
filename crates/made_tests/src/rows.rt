//! Rows of the tables: a call, its arguments, and what is expected.

use crate::calls::Call;
use Argument::{Line, Places as Count, Stored};
use Expected::Error;
use Kind::{Char, Num};
use Read::{Diagonal, Exchanged, Reversed, Second, Whole};
use apl_base::{ErrorKind, Kind};
use stored_leaves::{Argument, Expected, Read};

/// A call, its left and its right argument, and what is expected.
pub type Row = (Call, Argument, Argument, Expected);

/// RANK ERROR.
pub const RANK: Expected = Error(ErrorKind::Rank);
/// LENGTH ERROR.
pub const LENGTH: Expected = Error(ErrorKind::Length);
/// DOMAIN ERROR.
pub const DOMAIN: Expected = Error(ErrorKind::Domain);
/// INDEX ERROR.
pub const INDEX: Expected = Error(ErrorKind::Index);
/// LIMIT ERROR.
pub const LIMIT: Expected = Error(ErrorKind::Limit);

/// No numbers, and no left argument.
pub const NONE: Argument = Line(1, 0);
/// 'A'.
pub const LETTER: Argument = Stored(Char, &[], &[65], Whole);
/// 'ABC'.
pub const WORD: Argument = Stored(Char, &[3], &[65, 66, 67], Whole);
/// No characters.
pub const NO_TEXT: Argument = Stored(Char, &[0], &[], Whole);
/// 'AB' and 'CD' in two rows.
pub const LETTERS: Argument = Stored(Char, &[2, 2], &[65, 66, 67, 68], Whole);
/// 1 2 3 and 4 5 6 in two rows.
pub const TABLE: Argument = Stored(Num, &[2, 3], &[1, 2, 3, 4, 5, 6], Whole);
/// The same with its axes exchanged.
pub const TURNED: Argument = Stored(Num, &[2, 3], &[1, 2, 3, 4, 5, 6], Exchanged);
/// Its diagonal, 1 5.
pub const CORNERS: Argument = Stored(Num, &[2, 3], &[1, 2, 3, 4, 5, 6], Diagonal);
/// Its second row, 4 5 6.
pub const ROW: Argument = Stored(Num, &[2, 3], &[1, 2, 3, 4, 5, 6], Second);
/// 3 2 1 backwards.
pub const BACKWARDS: Argument = Stored(Num, &[3], &[3, 2, 1], Reversed);
/// The second of 6 7 8, alone.
pub const SEVEN: Argument = Stored(Num, &[3], &[6, 7, 8], Second);
/// As many numbers as an array can have.
pub const MOST: Argument = Count(&[1099511627776], Whole);
