//! What may follow a function: an axis, the other function of a product, or its right argument.
#![tactic(auto, using(crate::proofs::Opened::opened, apl_model::proofs::Bridge::bridges))]

ghost use Rattle.std.specs.Prelude.{◌≡◌, IfOk};
ghost use Rattle.apl_model.proofs.Machine as machine;
ghost use Rattle.apl_model.specs.Mirror.{tree_of};
ghost use Rattle.apl_tree.specs.Mirror.{sort_of, along_of, stack_of, reading_of};

use crate::begins::{at, awaits, begun};
use crate::opens::Opens;
use crate::reader::{Reader, Status};
use crate::sorts::Sort;
use crate::waits::{Along, Wait};
use apl_base::{Dya, Kind, Mon, NoMemory, Place};
use apl_model::{Axis, DyaFn, Expr, Literal, MonFn};
use sqlite_items::Boxed;

/// A token after a scalar function where an expression begins.
pub fn after_first(
    opens: Opens,
    f: Dya,
    alone: Option<Mon>,
    at_glyph: Place,
    sort: Sort,
    place: Place,
) -> Result<Option<Reader>, NoMemory>
    ensures { IfOk result (λ r. reading_of r
        ≡ machine.after_first (stack_of opens) f alone at_glyph place (sort_of sort)) }
{
    match sort {
        Sort::Slash => {
            let along = Along::Reduces { f, place };
            Ok(at(opens, Status::AxisOrNone { along }))
        }
        Sort::SlashFirst => awaits(
            opens,
            Wait::Reduce {
                f,
                axis: Axis::First,
                place,
            },
        ),
        other => match alone {
            Some(f) => {
                let f = MonFn::Scalar { f };
                let opens = opens.wait(Wait::One { f, place: at_glyph })?;
                begun(opens, other, place)
            }
            None => Ok(None),
        },
    }
}

/// A token after a scalar function that stands after an operand.
pub fn after_scalar(
    opens: Opens,
    f: Dya,
    left: Boxed<Expr>,
    at_glyph: Place,
    sort: Sort,
    place: Place,
) -> Result<Option<Reader>, NoMemory>
    ensures { IfOk result (λ r. reading_of r
        ≡ machine.after_scalar (stack_of opens) f (tree_of left) at_glyph place (sort_of sort)) }
{
    match sort {
        Sort::Dot => Ok(at(opens, Status::AfterDot { f, left, place })),
        other => {
            let f = DyaFn::Scalar { f };
            let opens = opens.wait(Wait::Two {
                f,
                left,
                place: at_glyph,
            })?;
            begun(opens, other, place)
        }
    }
}

/// A token after what takes an axis.
pub fn axis_begun(
    opens: Opens,
    along: Along,
    sort: Sort,
    place: Place,
) -> Result<Option<Reader>, NoMemory>
    ensures { IfOk result (λ r. reading_of r
        ≡ machine.axis_begun (stack_of opens) (along_of along) place (sort_of sort)) }
{
    match sort {
        Sort::OpenBracket => Ok(at(opens, Status::AxisOpened { along })),
        other => {
            let opens = opens.wait(along.axis(Axis::Last))?;
            begun(opens, other, place)
        }
    }
}

/// The number of an axis: one number.
fn axis_number(opens: Opens, along: Along, literal: Literal) -> Option<Reader>
    ensures { reading_of result ≡ machine.axis_number (stack_of opens) (along_of along) literal }
{
    let Literal { kind, cells } = literal;
    match kind {
        Kind::Num => match cells.as_slice() {
            [k] => at(
                opens,
                Status::AxisGiven {
                    along,
                    axis: Axis::Numbered { k: *k },
                },
            ),
            _ => None,
        },
        Kind::Char => None,
    }
}

/// A token after the `[` of an axis.
pub fn axis_taken(opens: Opens, along: Along, sort: Sort) -> Option<Reader>
    ensures { reading_of result
        ≡ machine.axis_taken (stack_of opens) (along_of along) (sort_of sort) }
{
    match sort {
        Sort::Literal { literal } => axis_number(opens, along, literal),
        _ => None,
    }
}

/// A token after the number of an axis.
pub fn axis_closed(
    opens: Opens,
    along: Along,
    axis: Axis,
    sort: Sort,
) -> Result<Option<Reader>, NoMemory>
    ensures { IfOk result (λ r. reading_of r
        ≡ machine.axis_closed (stack_of opens) (along_of along) axis (sort_of sort)) }
{
    match sort {
        Sort::CloseBracket => awaits(opens, along.axis(axis)),
        _ => Ok(None),
    }
}

/// A token after `∘`.
pub fn dot_taken(opens: Opens, left: Boxed<Expr>, at_jot: Place, sort: Sort) -> Option<Reader>
    ensures { reading_of result
        ≡ machine.dot_taken (stack_of opens) (tree_of left) at_jot (sort_of sort) }
{
    match sort {
        Sort::Dot => at(
            opens,
            Status::AfterJotDot {
                left,
                place: at_jot,
            },
        ),
        _ => None,
    }
}

/// A token after `∘.`.
pub fn outer_taken(
    opens: Opens,
    left: Boxed<Expr>,
    at_jot: Place,
    sort: Sort,
) -> Result<Option<Reader>, NoMemory>
    ensures { IfOk result (λ r. reading_of r
        ≡ machine.outer_taken (stack_of opens) (tree_of left) at_jot (sort_of sort)) }
{
    match sort {
        Sort::Scalar { f, .. } => awaits(
            opens,
            Wait::Outer {
                f,
                left,
                place: at_jot,
            },
        ),
        _ => Ok(None),
    }
}

/// A token after the `.` of an inner product.
pub fn inner_taken(
    opens: Opens,
    f: Dya,
    left: Boxed<Expr>,
    at_dot: Place,
    sort: Sort,
) -> Result<Option<Reader>, NoMemory>
    ensures { IfOk result (λ r. reading_of r
        ≡ machine.inner_taken (stack_of opens) f (tree_of left) at_dot (sort_of sort)) }
{
    match sort {
        Sort::Scalar { f: g, .. } => awaits(
            opens,
            Wait::Inner {
                f,
                g,
                left,
                place: at_dot,
            },
        ),
        _ => Ok(None),
    }
}
