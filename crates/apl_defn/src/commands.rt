//! Commands: the lines outside definitions that begin with `)`.
ghost use Rattle.std.specs.Prelude.{◌≡◌, ◌∷◌, List, true, IfOk};
ghost use Rattle.apl_model.specs.Refusal as refusal;
ghost use Rattle.apl_model.specs.Script.{is_glyph_token, IsCommandLine};
ghost use Rattle.apl_model.specs.declared.tokens.Heading.{Heading};
ghost use Rattle.apl_model.specs.declared.tokens.Token.{Token};
ghost use Rattle.apl_defn.specs.CommandSteps as step;
ghost use Rattle.apl_defn.specs.Reading.{IsReadLine, IfStopped};

use crate::line_faults::{LineFault, ends_early};
use apl_base::{Cell, Name, NoMemory};
use apl_model::{Command, Line, Word};
use sqlite_items::Items;
use std::alloc::Global;

/// What was read of a command, from the left.
#[derive(Drop)]
enum CommandSoFar {
    /// `)` alone.
    Opened,
    /// A command that nothing follows.
    Whole { command: Command },
    /// `)ERASE`, and the names behind it.
    Erases { names: Items<Name> },
    /// `)ORIGIN`.
    Origin,
}

impl CommandSoFar {
    /// With one word more, where a command goes on with it.
    fn take(self, alloc: Global, word: &Word) -> Result<Option<CommandSoFar>, NoMemory>
        ensures { IfOk result (λ next. next ≡ step.takes self word.now) }
    {
        match word {
            Word::Name { name } => self.take_name(alloc, name),
            Word::Numbers { cells } => Ok(self.take_numbers(cells.as_slice())),
            _ => Ok(None),
        }
    }

    /// With one name more: the command's own, or one that it erases.
    fn take_name(self, alloc: Global, name: &Name) -> Result<Option<CommandSoFar>, NoMemory>
        ensures { IfOk result (λ next. next ≡ step.takes_name self name.now) }
    {
        match self {
            CommandSoFar::Opened => Ok(named(alloc, name)),
            CommandSoFar::Erases { mut names } => {
                names.push(name.copy(alloc)?)?;
                Ok(Some(CommandSoFar::Erases { names }))
            }
            _ => Ok(None),
        }
    }

    /// With a literal of numbers: behind `)ORIGIN` one that is 0 or 1.
    fn take_numbers(self, cells: &[Cell]) -> Option<CommandSoFar>
        ensures { result ≡ step.takes_numbers self cells.now }
    {
        match (self, cells) {
            (CommandSoFar::Origin, [origin @ (0 | 1)]) => Some(CommandSoFar::Whole {
                command: Command::Origin { origin: *origin },
            }),
            _ => None,
        }
    }

    /// The command, where it may end here.
    fn finish(self) -> Option<Command>
        ensures { result ≡ step.finished self }
    {
        match self {
            CommandSoFar::Whole { command } => Some(command),
            CommandSoFar::Erases { names } if !names.is_empty() => Some(Command::Erase { names }),
            _ => None,
        }
    }
}

/// The command that a name begins.
fn named(alloc: Global, name: &Name) -> Option<CommandSoFar>
    ensures { result ≡ step.named name.now }
{
    match name.as_str() {
        "VARS" => Some(CommandSoFar::Whole {
            command: Command::Vars,
        }),
        "FNS" => Some(CommandSoFar::Whole {
            command: Command::Fns,
        }),
        "ERASE" => Some(CommandSoFar::Erases {
            names: Items::new(alloc),
        }),
        "ORIGIN" => Some(CommandSoFar::Origin),
        _ => None,
    }
}

/// The command that a line outside definitions is which begins with `)`, or the column where it stops being one.
pub(crate) fn read_command(alloc: Global, line: &Line) -> Result<Command, LineFault>
    requires read { IsReadLine line.now }
    requires begins { (t : Token) × (ts : List Token) × (line.now.tokens ≡ t ∷ ts)
        × (is_glyph_token ")" t ≡ true) }
    ensures command { IfOk result (IsCommandLine line.now line.now.number) }
    ensures stopped { IfStopped result (λ column. (hs : List Heading)
        → refusal.StopsAt refusal.outside hs line.now.number line.now.tokens column) }
{
    let _text = line.text.as_str();
    let tokens = line.tokens.as_slice();
    let mut command = CommandSoFar::Opened;
    for token in &tokens[1..] {
        match command.take(alloc, &token.word)? {
            Some(next) => command = next,
            None => return Err(LineFault::Stopped { column: token.from }),
        }
    }
    match command.finish() {
        Some(command) => Ok(command),
        None => Err(ends_early(tokens)),
    }
}
