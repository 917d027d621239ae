//! The names of the 27 scalar functions.

/// The scalar functions of one argument: `+ - × ÷ ⌈ ⌊ | ~ !`.
#[derive(Clone, Copy, Debug, PartialEq, Eq)]
pub enum Mon {
    Plus,
    Minus,
    Sign,
    Recip,
    Ceil,
    Floor,
    Abs,
    Not,
    Fact,
}

/// The scalar functions of two arguments: `+ - × ÷ * ⌈ ⌊ | ∧ ∨ ⍲ ⍱ < ≤ = ≥ > ≠`.
#[derive(Clone, Copy, Debug, PartialEq, Eq)]
pub enum Dya {
    Add,
    Sub,
    Mul,
    Div,
    Pow,
    Max,
    Min,
    Residue,
    And,
    Or,
    Nand,
    Nor,
    Lt,
    Le,
    Eq,
    Ge,
    Gt,
    Ne,
}
