//! The nodes of a pending expression.

use crate::leaves::Leaf;
use apl_base::{Dya, Mon, Place};

/// A node of a pending expression in postfix order. The right operand of a function of two arguments stands first.
#[derive(Drop)]
pub enum Node {
    Operand { leaf: Leaf },
    One { f: Mon, place: Place },
    Two { f: Dya, place: Place },
}
