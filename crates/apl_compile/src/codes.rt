//! Code: what the machine runs, instruction after instruction.

use apl_base::{Dya, Name, Place};
use apl_model::{Axis, DyaFn, Literal, MonFn};
use sqlite_items::Items;

/// What an instruction does. It takes its operands from the values pending, the newest first.
#[derive(Drop)]
pub enum Op {
    /// The literal is put there.
    Lit { literal: Literal },
    /// The value of the name is put there, or it is a VALUE ERROR.
    Name { name: Name },
    /// `f B`.
    Mon { f: MonFn },
    /// `A f B`: A is the newest value, B the one before.
    Dya { f: DyaFn },
    /// `f/B` along an axis.
    Red { f: Dya, axis: Axis },
    /// `A∘.f B`.
    Outer { f: Dya },
    /// `A f.g B`.
    Inner { f: Dya, g: Dya },
    /// `A[I;J]`: A, then the positions that the mask says are there, the first one first.
    Index { mask: Items<bool> },
    /// The value is given to the name, and stays.
    Asg { name: Name },
    /// `A[I;J]←B`: the positions that are there, the first one first, then B, which stays.
    Iasg { name: Name, mask: Items<bool> },
    /// A call with so many arguments, the left one first. `whole` is set where no result is needed.
    Call { f: Name, arguments: u8, whole: bool },
    /// The value is printed, and stays.
    Show,
    /// The value is printed; there is none after a call without a result.
    Print,
    /// A branch.
    Goto,
    /// The end of the statement.
    End,
}

/// An instruction, and the place that a report of it shows.
#[derive(Drop)]
pub struct Instruction {
    pub place: Place,
    pub op: Op,
}

/// The code of a statement, which is run from its first instruction to `End`.
#[derive(Drop)]
pub struct Code {
    pub instructions: Items<Instruction>,
}
