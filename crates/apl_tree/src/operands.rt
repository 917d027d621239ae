//! What may follow an operand.
#![tactic(auto, using(crate::proofs::Opened::opened, apl_model::proofs::Bridge::bridges))]

ghost use Rattle.std.specs.Prelude.{◌≡◌, IfOk};
ghost use Rattle.apl_model.proofs.Machine as machine;
ghost use Rattle.apl_model.specs.Mirror.{tree_of};
ghost use Rattle.apl_tree.specs.Mirror.{sort_of, stack_of, reading_of};

use crate::begins::{at, awaits};
use crate::brackets::{close_parenthesis, close_subscript, next_position, parted, subscripted};
use crate::opens::Opens;
use crate::reader::{Reader, Status};
use crate::sorts::Sort;
use crate::waits::{Along, Wait};
use apl_base::{Name, NoMemory, Place};
use apl_model::{Axis, DyaFn, Expr};
use sqlite_items::Boxed;
use std::alloc::Global;

/// `←` after an operand: a name, or a name with a subscript.
fn assigned(opens: Opens, tree: Expr) -> Result<Option<Reader>, NoMemory>
    ensures { IfOk result (λ r. reading_of r ≡ machine.assigned (tree_of tree) (stack_of opens)) }
{
    match tree {
        Expr::Name { name, place } => awaits(opens, Wait::Assign { name, place }),
        Expr::Index {
            array,
            positions,
            place,
        } => match array.into_inner() {
            Expr::Name { name, .. } => awaits(
                opens,
                Wait::IndexAssign {
                    name,
                    positions,
                    place,
                },
            ),
            _ => Ok(None),
        },
        _ => Ok(None),
    }
}

/// A name after an operand: that of a function of two arguments.
fn followed_by_name(
    opens: Opens,
    left: Boxed<Expr>,
    name: Name,
    arguments: Option<u8>,
    place: Place,
) -> Result<Option<Reader>, NoMemory>
    ensures { IfOk result (λ r. reading_of r
        ≡ machine.followed_by_name (stack_of opens) (tree_of left) place name arguments) }
{
    match arguments {
        Some(2) => awaits(
            opens,
            Wait::Call {
                f: name,
                left: Some(left),
                place,
            },
        ),
        _ => Ok(None),
    }
}

/// What takes an axis in brackets, or goes on with a dot, after an operand.
fn followed_along(opens: Opens, left: Boxed<Expr>, sort: Sort, place: Place) -> Option<Reader>
    ensures { reading_of result
        ≡ machine.followed_along (stack_of opens) (tree_of left) place (sort_of sort) }
{
    let along = match sort {
        Sort::Turn => Along::Rotates { left, place },
        Sort::Slash => Along::Compresses { left, place },
        Sort::Backslash => Along::Expands { left, place },
        Sort::Jot => return at(opens, Status::AfterJot { left, place }),
        _ => return None,
    };
    at(opens, Status::AxisOrNone { along })
}

/// A function after an operand, which is its left argument.
fn followed_by(
    opens: Opens,
    left: Boxed<Expr>,
    sort: Sort,
    place: Place,
) -> Result<Option<Reader>, NoMemory>
    ensures { IfOk result (λ r. reading_of r
        ≡ machine.followed_by (stack_of opens) (tree_of left) place (sort_of sort)) }
{
    match sort {
        Sort::Named { name, arguments } => followed_by_name(opens, left, name, arguments, place),
        Sort::Scalar { f, .. } => Ok(at(opens, Status::GlyphAfter { f, left, place })),
        Sort::Plain {
            between: Some(f),
            ..
        } => awaits(opens, Wait::Two { f, left, place }),
        Sort::SlashFirst => {
            let f = DyaFn::Compress { axis: Axis::First };
            awaits(opens, Wait::Two { f, left, place })
        }
        other => Ok(followed_along(opens, left, other, place)),
    }
}

/// A token after an operand.
pub fn followed(
    alloc: Global,
    opens: Opens,
    tree: Expr,
    sort: Sort,
    place: Place,
) -> Result<Option<Reader>, NoMemory>
    ensures { IfOk result (λ r. reading_of r
        ≡ machine.followed (stack_of opens) (tree_of tree) place (sort_of sort)) }
{
    match sort {
        Sort::Assign => assigned(opens, tree),
        Sort::OpenBracket => subscripted(alloc, opens, tree, place),
        Sort::CloseParen => close_parenthesis(alloc, opens.close(alloc, tree)?),
        Sort::CloseBracket => {
            let (left, last) = parted(opens.close(alloc, tree)?);
            close_subscript(alloc, left, Some(last))
        }
        Sort::Semicolon => {
            let (left, last) = parted(opens.close(alloc, tree)?);
            next_position(left, Some(last))
        }
        other => {
            let left = Boxed::new(alloc, tree)?;
            followed_by(opens, left, other, place)
        }
    }
}
