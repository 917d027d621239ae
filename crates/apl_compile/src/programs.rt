//! The compiled program of a script, and its look-ups.
#![tactic(auto)]

ghost use Rattle.std.specs.Prelude.{◌≡◌, suc, IfOk, None, slice_get};
ghost use Rattle.std.specs.Option.{MatchOption, option_copied};
ghost use Rattle.std.specs.Str.{chars};
ghost use Rattle.apl_model.specs.Call.{routine_of};
ghost use Rattle.apl_model.specs.Printed.{body_prefix, plain_prefix};
ghost use Rattle.apl_compile.specs.Lookups.{IsFunctionAt};
ghost use Rattle.apl_compile.specs.Running.{line_text_in, prefix_from, routines_in};

use crate::codes::Code;
use crate::tables::Standing;
use apl_base::Name;
use apl_model::{Outline, OutlineItem};
use indexmap::IndexMap;
use sqlite_items::Items;
use std::marker::Model;

/// A function of a program: the number of its item in the outline, and the number of the code of its first line, both
/// from 0. The codes of its other lines follow.
#[derive(Clone, Copy, Debug, PartialEq, Eq)]
pub struct Function {
    pub item: usize,
    pub code: usize,
}

/// A compiled program, which contracts see as its outline and the codes of its statements in the order of lines.
#[derive(Drop)]
pub struct Program {
    pub(crate) outline: Outline,
    pub(crate) codes: Items<Code>,
    pub(crate) functions: IndexMap<String, Function>,
    pub(crate) lines: IndexMap<u32, usize>,
    pub(crate) bodies: IndexMap<u32, Standing>,
}

impl Model for Program {
    ghost use Rattle.std.specs.Prelude.{◌≡◌, length};
    ghost use Rattle.apl_compile.specs.Program.{ProgramView};
    ghost use Rattle.apl_compile.specs.Tables.{codes_for, HasBodies, HasFunctions, HasLines};

    ghost Value = { ProgramView };

    ghost view = { λ p. record { outline = p.outline; codes = p.codes } };

    ghost invariant = { λ p.
        (codes_for p.outline.items ≡ length p.codes)
        × HasFunctions p.functions 0 0 p.outline.items
        × HasLines p.lines 0 p.outline.lines
        × HasBodies p.bodies 0 p.outline.items };
}

impl Program {
    /// The script without its trees: its lines and items.
    pub fn outline(&self) -> &Outline
        ensures { result.now ≡ self.now.outline }
    {
        &self.outline
    }

    /// The code of this number, from 0, where there is one.
    pub fn code(&self, number: usize) -> Option<&Code>
        ensures { option_copied result ≡ slice_get self.now.codes number }
    {
        self.codes.get(number)
    }

    /// The function of this name, where it heads a definition. It takes the time of one look-up in a table.
    pub fn function(&self, name: &Name) -> Option<Function>
        ensures { MatchOption result
            (routine_of (routines_in self.now) name.now ≡ None)
            (λ f. IsFunctionAt self.now name.now f) }
    {
        self.functions.get(name.as_str()).copied()
    }

    /// The text of the line of this number, empty where there is none. It takes the time of one look-up in a table.
    pub fn text(&self, number: u32) -> &str
        ensures { chars result.now ≡ line_text_in self.now.outline.lines number }
    {
        let Some(place) = self.lines.get(&number) else {
            return "";
        };
        match self.outline.lines.get(*place) {
            Some(line) => line.text.as_str(),
            None => "",
        }
    }

    /// The function in whose body the line of this number stands, and the line's number there, from 0; none for a line
    /// outside definitions. It takes the time of one look-up in a table.
    pub fn function_with(&self, number: u32) -> Option<(&Name, usize)>
        ensures { MatchOption result
            (prefix_from number self.now.outline.items ≡ plain_prefix)
            (λ w. prefix_from number self.now.outline.items ≡ body_prefix w.0.now (suc w.1)) }
    {
        let standing = self.bodies.get(&number)?;
        match self.outline.items.get(standing.item) {
            Some(OutlineItem::Definition { header, .. }) => Some((&header.f, standing.line)),
            Some(OutlineItem::Statement { .. }) => None,
            Some(OutlineItem::Command { .. }) => None,
            None => None,
        }
    }
}
