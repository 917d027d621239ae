//! What a function of whole arrays is expected to answer.

ghost use Rattle.std.specs.Prelude.{IfOk};
ghost use Rattle.drag_along.specs.Lawful.{IsLawfulLeaf};

use apl_base::{Cell, ErrorKind, Kind};
use array_store::Store;
use drag_along::Leaf;
use made_leaf::{MadeFault, read_block};

/// What is expected: few numbers or characters in an array of these lengths, or an error.
#[derive(Clone, Copy, Debug)]
pub enum Expected {
    /// Numbers in row-major order.
    Numbers(&'static [u64], &'static [i64]),
    /// Characters in row-major order.
    Text(&'static [u64], &'static [i64]),
    /// An error of the language.
    Error(ErrorKind),
}

/// Whether an answer is what is expected.
pub fn is_expected(answer: Result<Leaf, MadeFault>, expected: &Expected, store: &mut Store) -> bool
    requires { IfOk answer (IsLawfulLeaf store.old) }
{
    match (answer, *expected) {
        (Ok(leaf), Expected::Numbers(lengths, values)) => {
            leaf.kind() == Kind::Num && is_array(&leaf, lengths, values, store)
        }
        (Ok(leaf), Expected::Text(lengths, values)) => {
            leaf.kind() == Kind::Char && is_array(&leaf, lengths, values, store)
        }
        (Err(fault), Expected::Error(kind)) => fault == MadeFault::Error { kind },
        _ => false,
    }
}

// Whether a leaf has these lengths and cells.
fn is_array(leaf: &Leaf, lengths: &[u64], values: &[i64], store: &mut Store) -> bool
    requires { IsLawfulLeaf store.old leaf.now }
{
    let mut read = [0; 16];
    let count = leaf.desc().size() as usize;
    if count > 16 || count != values.len() || leaf.desc().shape.lengths() != lengths {
        return false;
    }
    read_block(leaf, 0, store, &mut read[..count]);
    let mut pairs = read[..count].iter().zip(values.iter());
    pairs.all(|(cell, value)| *cell == Cell::from(*value))
}
