//! What is open while a statement is read: forms that wait for their right argument, and brackets.
#![tactic(auto, using(crate::proofs::Opened::opened))]

ghost use Rattle.std.specs.Prelude.{◌≡◌, IfOk};
ghost use Rattle.apl_model.proofs.Machine as machine;
ghost use Rattle.apl_model.specs.Mirror.{tree_of};
ghost use Rattle.apl_model.specs.Tree.{Slot};
ghost use Rattle.apl_tree.specs.Mirror.{wait_of, bracket_on, bracket_or_bottom, stack_of, wound_of};

use crate::waits::Wait;
use apl_base::{NoMemory, Place};
use apl_model::Expr;
use sqlite_items::Items;
use std::alloc::Global;

/// An open parenthesis, or an open subscript with the positions so far.
#[derive(Drop)]
pub enum Bracket {
    Parenthesis {
        place: Place,
    },
    Subscript {
        array: Expr,
        positions: Items<Option<Expr>>,
        place: Place,
    },
}

/// What is not complete yet.
#[derive(Drop)]
pub enum Open {
    Waiting { wait: Wait },
    Inside { bracket: Bracket },
}

/// All that is not complete yet, the innermost last, and the place of the statement's `→`.
#[derive(Drop)]
pub struct Opens {
    pub branch: Option<Place>,
    pub items: Items<Open>,
}

/// The innermost bracket, and what is open around it.
#[derive(Drop)]
pub struct Left {
    pub bracket: Option<Bracket>,
    pub opens: Opens,
}

/// A complete expression, the bracket that it stands in, and what is open around that.
#[derive(Drop)]
pub struct Closed {
    pub tree: Expr,
    pub bracket: Option<Bracket>,
    pub opens: Opens,
}

impl Opens {
    /// With nothing open but the statement, after a `→` where it has one.
    pub fn new(alloc: Global, branch: Option<Place>) -> Opens
        ensures { stack_of result ≡ machine.bottom branch }
    {
        Opens {
            branch,
            items: Items::new(alloc),
        }
    }

    /// Without the innermost bracket, where nothing waits inside it.
    pub fn leave(mut self) -> Left
        ensures closed { (s : Slot)
            → machine.close_subscript s (stack_of self)
            ≡ machine.close_subscript s (bracket_or_bottom result.bracket result.opens) }
        ensures parted { (s : Slot)
            → machine.next_position s (stack_of self)
            ≡ machine.next_position s (bracket_or_bottom result.bracket result.opens) }
    {
        let bracket = match self.items.pop() {
            Some(Open::Inside { bracket }) => Some(bracket),
            Some(Open::Waiting { wait: _wait }) => None,
            None => None,
        };
        Left {
            bracket,
            opens: self,
        }
    }

    /// With a form that waits for its right argument.
    pub fn wait(mut self, wait: Wait) -> Result<Opens, NoMemory>
        ensures { IfOk result (λ o. stack_of o ≡ machine.waiting (wait_of wait) (stack_of self)) }
    {
        self.items.push(Open::Waiting { wait })?;
        Ok(self)
    }

    /// With an open bracket.
    pub fn enter(mut self, bracket: Bracket) -> Result<Opens, NoMemory>
        ensures { IfOk result (λ o. stack_of o ≡ bracket_on bracket (stack_of self)) }
    {
        self.items.push(Open::Inside { bracket })?;
        Ok(self)
    }

    /// The expression that ends with this operand: what waits for it takes it, up to the innermost
    /// bracket.
    pub fn close(mut self, alloc: Global, operand: Expr) -> Result<Closed, NoMemory>
        ensures { IfOk result (λ w. wound_of w ≡ machine.wind (tree_of operand) (stack_of self)) }
    {
        let mut tree = operand;
        while let Some(open) = self.items.pop() {
            match open {
                Open::Waiting { wait } => tree = wait.fill(alloc, tree)?,
                Open::Inside { bracket } => {
                    return Ok(Closed {
                        tree,
                        bracket: Some(bracket),
                        opens: self,
                    });
                }
            }
        }
        Ok(Closed {
            tree,
            bracket: None,
            opens: self,
        })
    }
}
