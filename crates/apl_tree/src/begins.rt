//! Where an expression begins.
#![tactic(auto, using(crate::proofs::Opened::opened, apl_model::proofs::Bridge::bridges))]

ghost use Rattle.std.specs.Prelude.{◌≡◌, IfOk};
ghost use Rattle.apl_model.proofs.Machine as machine;
ghost use Rattle.apl_tree.specs.Mirror.{sort_of, wait_of, stack_of, reading_of};

use crate::opens::{Bracket, Opens};
use crate::reader::{Reader, Status};
use crate::sorts::Sort;
use crate::waits::{Along, Wait};
use apl_base::{Name, NoMemory, Place};
use apl_model::Expr;

/// The reader with this last.
pub fn at(opens: Opens, status: Status) -> Option<Reader>
    ensures { result ≡ Some (record { opens = opens; status = status }) }
{
    Some(Reader { opens, status })
}

/// A form that waits for an expression.
pub fn awaits(opens: Opens, wait: Wait) -> Result<Option<Reader>, NoMemory>
    ensures { IfOk result (λ r. reading_of r
        ≡ Some (machine.awaits (wait_of wait) (stack_of opens))) }
{
    let opens = opens.wait(wait)?;
    Ok(at(opens, Status::Must))
}

/// An expression begins with a name.
fn begun_by_name(
    opens: Opens,
    name: Name,
    arguments: Option<u8>,
    place: Place,
) -> Result<Option<Reader>, NoMemory>
    ensures { IfOk result (λ r. reading_of r
        ≡ machine.begun (stack_of opens) place (machine.named name arguments)) }
{
    match arguments {
        None => Ok(at(
            opens,
            Status::Operand {
                tree: Expr::Name { name, place },
            },
        )),
        Some(0) => {
            let tree = Expr::Call {
                f: name,
                left: None,
                right: None,
                place,
            };
            Ok(at(opens, Status::Operand { tree }))
        }
        Some(1) => awaits(
            opens,
            Wait::Call {
                f: name,
                left: None,
                place,
            },
        ),
        Some(_) => Ok(None),
    }
}

/// An expression begins.
pub fn begun(opens: Opens, sort: Sort, place: Place) -> Result<Option<Reader>, NoMemory>
    ensures { IfOk result (λ r. reading_of r
        ≡ machine.begun (stack_of opens) place (sort_of sort)) }
{
    match sort {
        Sort::Literal { literal } => {
            let tree = Expr::Lit { literal, place };
            Ok(at(opens, Status::Operand { tree }))
        }
        Sort::Named { name, arguments } => begun_by_name(opens, name, arguments, place),
        Sort::Scalar { f, alone } => Ok(at(opens, Status::GlyphFirst { f, alone, place })),
        Sort::Plain { alone: Some(f), .. } => awaits(opens, Wait::One { f, place }),
        Sort::Turn => {
            let along = Along::Reverses { place };
            Ok(at(opens, Status::AxisOrNone { along }))
        }
        Sort::Quad => Ok(at(opens, Status::AfterQuad { place })),
        Sort::OpenParen => {
            let opens = opens.enter(Bracket::Parenthesis { place })?;
            Ok(at(opens, Status::Must))
        }
        _ => Ok(None),
    }
}
