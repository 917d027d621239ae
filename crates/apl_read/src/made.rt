//! The tokens of a line as they are made, from the left.
use apl_base::{Cell, NoMemory};
use apl_model::{Token, Word};
use sqlite_items::Items;
use std::alloc::Global;
use std::mem;

/// The tokens so far, and the numbers of the literal that may still go on, with the columns that it covers.
#[derive(Drop)]
pub(crate) struct Made {
    pub tokens: Vec<Token>,
    pub from: u32,
    pub past: u32,
    pub numbers: Vec<Cell>,
}

impl Made {
    ghost use Rattle.std.specs.Prelude.{◌≡◌, List, [], ◌∷◌, OnOk, IfOk};
    ghost use Rattle.apl_model.specs.Tokens.{number_before};
    ghost use Rattle.apl_model.specs.declared.tokens.Token.{Token};
    ghost use Rattle.apl_read.specs.Pieces.{made_before};
    ghost use Rattle.apl_read.specs.NoNumbers.{IsNoNumbers};

    /// No tokens yet.
    pub(crate) fn new(alloc: Global) -> Made
        ensures { (ts : List Token) → made_before result ts ≡ ts }
    {
        Made {
            tokens: Vec::new(alloc),
            from: 1,
            past: 1,
            numbers: Vec::new(alloc),
        }
    }

    /// Adds a number, which goes on a literal.
    pub(crate) fn add_number(&mut self, from: u32, past: u32, value: Cell) -> Result<(), NoMemory>
        ensures { OnOk result ((ts : List Token)
            → made_before self.old (number_before from past value ts) ≡ made_before self.new ts) }
    {
        if self.numbers.is_empty() {
            self.from = from;
        }
        self.past = past;
        self.numbers.push(value)?;
        Ok(())
    }

    /// Ends the literal that may still go on.
    fn end_literal(&mut self, alloc: Global) -> Result<(), NoMemory>
        ensures tokens { OnOk result (self.new.tokens.items ≡ made_before self.old []) }
        ensures nothing { OnOk result (self.new.numbers.items ≡ []) }
    {
        if !self.numbers.is_empty() {
            let cells = Items::from_vec(mem::replace(&mut self.numbers, Vec::new(alloc)));
            self.tokens.push(Token {
                from: self.from,
                past: self.past,
                word: Word::Numbers { cells },
            })?;
        }
        Ok(())
    }

    /// Adds a token that is no literal of numbers.
    pub(crate) fn add_token(&mut self, alloc: Global, token: Token) -> Result<(), NoMemory>
        requires { IsNoNumbers token.word }
        ensures { OnOk result ((ts : List Token)
            → made_before self.old (token ∷ ts) ≡ made_before self.new ts) }
    {
        self.end_literal(alloc)?;
        self.tokens.push(token)?;
        Ok(())
    }

    /// All the tokens.
    pub(crate) fn finish(mut self, alloc: Global) -> Result<Vec<Token>, NoMemory>
        ensures { IfOk result (λ ts. ts.items ≡ made_before self []) }
    {
        self.end_literal(alloc)?;
        Ok(self.tokens)
    }
}
