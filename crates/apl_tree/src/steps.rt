//! The steps of the reader: its start, one more token, and its end.
#![tactic(auto, using(crate::proofs::Opened::opened, apl_model::proofs::Bridge::bridges))]

ghost use Rattle.std.specs.Prelude.{◌≡◌, IfOk};
ghost use Rattle.apl_model.proofs.Machine as machine;
ghost use Rattle.apl_tree.specs.Mirror.{sort_of, stack_of, wound_of};
ghost use Rattle.apl_tree.specs.Mirror.{reading_of, reader_of, ending_of};

use crate::begins::{at, awaits, begun};
use crate::brackets::{close_subscript, next_position};
use crate::functions::{
    after_first, after_scalar, axis_begun, axis_closed, axis_taken, dot_taken, inner_taken,
    outer_taken,
};
use crate::opens::{Closed, Opens};
use crate::operands::followed;
use crate::reader::{Reader, Status};
use crate::sorts::Sort;
use crate::waits::Wait;
use apl_base::{NoMemory, Place};
use apl_model::Statement;
use std::alloc::Global;

/// The first token of a statement.
fn first_taken(
    alloc: Global,
    opens: Opens,
    sort: Sort,
    place: Place,
) -> Result<Option<Reader>, NoMemory>
    ensures { IfOk result (λ r. reading_of r
        ≡ machine.first_taken (stack_of opens) place (sort_of sort)) }
{
    match sort {
        Sort::Arrow => Ok(at(Opens::new(alloc, Some(place)), Status::Must)),
        other => begun(opens, other, place),
    }
}

/// A position begins, or is left out.
fn may_begin(
    alloc: Global,
    opens: Opens,
    sort: Sort,
    place: Place,
) -> Result<Option<Reader>, NoMemory>
    ensures { IfOk result (λ r. reading_of r
        ≡ machine.may_begin (stack_of opens) place (sort_of sort)) }
{
    match sort {
        Sort::CloseBracket => close_subscript(alloc, opens.leave(), None),
        Sort::Semicolon => next_position(opens.leave(), None),
        other => begun(opens, other, place),
    }
}

/// A token after `⎕`.
fn quad_taken(opens: Opens, at_quad: Place, sort: Sort) -> Result<Option<Reader>, NoMemory>
    ensures { IfOk result (λ r. reading_of r
        ≡ machine.quad_taken (stack_of opens) at_quad (sort_of sort)) }
{
    match sort {
        Sort::Assign => awaits(opens, Wait::Output { place: at_quad }),
        _ => Ok(None),
    }
}

impl Reader {
    /// The reader before the first token.
    pub fn new(alloc: Global) -> Reader
        ensures { reader_of result ≡ machine.start }
    {
        Reader {
            opens: Opens::new(alloc, None),
            status: Status::First,
        }
    }

    /// The reader after one more token, or none where the token can't follow.
    pub fn take(self, alloc: Global, sort: Sort, place: Place) -> Result<Option<Reader>, NoMemory>
        ensures { IfOk result (λ r. reading_of r
            ≡ machine.taken (reader_of self) place (sort_of sort)) }
    {
        let Reader { opens, status } = self;
        match status {
            Status::First => first_taken(alloc, opens, sort, place),
            Status::Must => begun(opens, sort, place),
            Status::May => may_begin(alloc, opens, sort, place),
            Status::Operand { tree } => followed(alloc, opens, tree, sort, place),
            Status::GlyphFirst {
                f,
                alone,
                place: at,
            } => after_first(opens, f, alone, at, sort, place),
            Status::GlyphAfter { f, left, place: at } => after_scalar(
                opens, f, left, at, sort, place,
            ),
            Status::AxisOrNone { along } => axis_begun(opens, along, sort, place),
            Status::AxisOpened { along } => Ok(axis_taken(opens, along, sort)),
            Status::AxisGiven { along, axis } => axis_closed(opens, along, axis, sort),
            Status::AfterJot { left, place: at } => Ok(dot_taken(opens, left, at, sort)),
            Status::AfterJotDot { left, place: at } => outer_taken(opens, left, at, sort),
            Status::AfterDot { f, left, place: at } => inner_taken(opens, f, left, at, sort),
            Status::AfterQuad { place: at } => quad_taken(opens, at, sort),
        }
    }

    /// The statement, where it may end here.
    pub fn finish(self, alloc: Global) -> Result<Option<Statement>, NoMemory>
        ensures { IfOk result (λ s. ending_of s ≡ machine.finished (reader_of self)) }
    {
        let Reader { opens, status } = self;
        match status {
            Status::First => Ok(Some(Statement::Nothing)),
            Status::Operand { tree } => Ok(ended(opens.close(alloc, tree)?)),
            _ => Ok(None),
        }
    }
}

/// The statement of a complete expression that stands in no bracket.
fn ended(closed: Closed) -> Option<Statement>
    ensures { ending_of result
        ≡ machine.finished_with (wound_of closed).tree (wound_of closed).stack }
{
    let Closed {
        tree,
        bracket,
        opens,
    } = closed;
    match bracket {
        Some(_) => None,
        None => match opens.branch {
            None => Some(Statement::Value { value: tree }),
            Some(place) => Some(Statement::Branch { value: tree, place }),
        },
    }
}
