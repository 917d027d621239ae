//! What opens and closes in brackets: a parenthesis, and the positions of a subscript.
#![tactic(auto, using(crate::proofs::Opened::opened, apl_model::proofs::Bridge::bridges))]

ghost use Rattle.std.specs.Prelude.{◌≡◌, IfOk};
ghost use Rattle.apl_model.proofs.Bridge.{slot_with};
ghost use Rattle.apl_model.proofs.Machine as machine;
ghost use Rattle.apl_model.specs.Mirror.{tree_of};
ghost use Rattle.apl_tree.specs.Mirror.{stack_of, bracket_or_bottom, wound_of, reading_of};

use crate::begins::at;
use crate::opens::{Bracket, Closed, Left, Opens};
use crate::reader::{Reader, Status};
use apl_base::{NoMemory, Place};
use apl_model::Expr;
use sqlite_items::{Boxed, Items};
use std::alloc::Global;

/// The parenthesis closes after this expression.
pub fn close_parenthesis(alloc: Global, closed: Closed) -> Result<Option<Reader>, NoMemory>
    ensures { IfOk result (λ r. reading_of r
        ≡ machine.close_parenthesis (wound_of closed).tree (wound_of closed).stack) }
{
    let Closed {
        tree,
        bracket,
        opens,
    } = closed;
    match bracket {
        Some(Bracket::Parenthesis { place }) => {
            let inner = Boxed::new(alloc, tree)?;
            let tree = Expr::Paren { inner, place };
            Ok(at(opens, Status::Operand { tree }))
        }
        _ => Ok(None),
    }
}

/// The subscript closes after this position.
pub fn close_subscript(
    alloc: Global,
    left: Left,
    position: Option<Expr>,
) -> Result<Option<Reader>, NoMemory>
    ensures { IfOk result (λ r. reading_of r
        ≡ machine.close_subscript (slot_with position)
        (bracket_or_bottom left.bracket left.opens)) }
{
    let Left { bracket, opens } = left;
    match bracket {
        Some(
            Bracket::Subscript {
                array,
                mut positions,
                place,
            },
        ) => {
            positions.push(position)?;
            let array = Boxed::new(alloc, array)?;
            let tree = Expr::Index {
                array,
                positions,
                place,
            };
            Ok(at(opens, Status::Operand { tree }))
        }
        _ => Ok(None),
    }
}

/// The subscript goes on after this position.
pub fn next_position(left: Left, position: Option<Expr>) -> Result<Option<Reader>, NoMemory>
    ensures { IfOk result (λ r. reading_of r
        ≡ machine.next_position (slot_with position)
        (bracket_or_bottom left.bracket left.opens)) }
{
    let Left { bracket, opens } = left;
    match bracket {
        Some(
            Bracket::Subscript {
                array,
                mut positions,
                place,
            },
        ) => {
            positions.push(position)?;
            let opens = opens.enter(Bracket::Subscript {
                array,
                positions,
                place,
            })?;
            Ok(at(opens, Status::May))
        }
        _ => Ok(None),
    }
}

/// `[` after an operand: a subscript begins.
pub fn subscripted(
    alloc: Global,
    opens: Opens,
    array: Expr,
    place: Place,
) -> Result<Option<Reader>, NoMemory>
    ensures { IfOk result (λ r. reading_of r
        ≡ machine.followed (stack_of opens) (tree_of array) place machine.open_bracket) }
{
    let positions = Items::new(alloc);
    let opens = opens.enter(Bracket::Subscript {
        array,
        positions,
        place,
    })?;
    Ok(at(opens, Status::May))
}

/// A complete expression apart from the bracket that it stands in.
pub fn parted(closed: Closed) -> (Left, Expr)
    ensures bracket { result.0.bracket ≡ closed.bracket }
    ensures opens { result.0.opens ≡ closed.opens }
    ensures tree { result.1 ≡ closed.tree }
{
    let Closed {
        tree,
        bracket,
        opens,
    } = closed;
    (Left { bracket, opens }, tree)
}
