//! The kinds of columns.

ghost use Rattle.std.specs.Prelude.{◌≡◌, ◌<◌, [], ◌∷◌, length, OnOk};

use apl_base::{Kind, NoMemory};
use smallvec::SmallVec;
use std::alloc::Global;
use std::marker::Model;

/// How many kinds take no memory.
const KEPT_INLINE: usize = 8;

/// The kinds of the columns that are pending, which contracts see as a list, the newest first.
#[derive(Drop)]
pub struct Kinds {
    of_characters: SmallVec<bool, KEPT_INLINE>,
}

impl Model for Kinds {
    ghost use Rattle.std.specs.Prelude.{List, map, reverse};
    ghost use Rattle.apl_base.specs.declared.cells.Kind.{Kind};
    ghost use Rattle.e_machine.specs.Kinds.{kind_where};

    ghost Value = { List Kind };

    ghost view = { λ k. map kind_where (reverse k.of_characters.items) };
}

impl Kinds {
    /// No kind. It takes no memory.
    pub fn new(alloc: Global) -> Kinds
        ensures { result ≡ [] }
    {
        Kinds {
            of_characters: SmallVec::new(alloc),
        }
    }

    /// Lets all kinds go, but not the room that they had.
    pub fn clear(&mut self)
        ensures { self.new ≡ [] }
    {
        self.of_characters.clear();
    }

    /// Puts a kind in front.
    pub fn push(&mut self, kind: Kind) -> Result<(), NoMemory>
        ensures { OnOk result (self.new ≡ kind ∷ self.old) }
    {
        self.of_characters.push(kind == Kind::Char)?;
        Ok(())
    }

    /// Takes the newest kind off.
    pub fn pop(&mut self) -> Kind
        requires { 0 < length self.old }
        ensures { self.old ≡ result ∷ self.new }
    {
        match self.of_characters.pop() {
            Some(true) => Kind::Char,
            Some(false) => Kind::Num,
            None => unreachable!(),
        }
    }
}
