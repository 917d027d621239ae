//! Classes of names prepared for quick look-ups.

ghost use Rattle.std.specs.Prelude.{◌≡◌, IfOk};
ghost use Rattle.apl_model.specs.Grammar as grammar;
ghost use Rattle.apl_tree.specs.Prepared.{Answers};

use crate::arguments::NameClasses;
use apl_base::{Name, NoMemory};
use apl_model::{Classes, Heading};
use std::alloc::Global;
use std::collections::BTreeMap;
use std::marker::Model;

/// Classes of names, prepared for many look-ups, which contracts see as the list of the headings.
#[derive(Drop)]
pub struct Lookup {
    classes: Classes,
    by_text: BTreeMap<String, u8>,
}

impl Model for Lookup {
    ghost use Rattle.std.specs.Prelude.{List};
    ghost use Rattle.apl_model.specs.declared.tokens.Heading.{Heading};
    ghost use Rattle.apl_tree.specs.Prepared.{Answers};

    ghost Value = { List Heading };

    ghost view = { λ l. l.classes.headings };

    ghost invariant = { λ l. Answers l.by_text l.classes.headings };
}

impl Lookup {
    /// The classes, prepared.
    pub fn of(alloc: Global, classes: Classes) -> Result<Lookup, NoMemory>
        ensures { IfOk result (λ l. l ≡ classes.headings) }
    {
        let by_text = prepared(alloc, classes.headings.as_slice())?;
        Ok(Lookup { classes, by_text })
    }

    /// How many arguments the function of this name has, or none where the name heads no
    /// definition. It takes the time of one look-up in an ordered map.
    pub fn arguments(&self, name: &Name) -> Option<u8>
        ensures { result ≡ grammar.arguments_of self.now name.now }
    {
        self.by_text.get(name.as_str()).copied()
    }
}

impl NameClasses for Lookup {
    ghost headings = { λ l. l };

    // One look-up in the map.
    fn arguments(&self, name: &Name) -> Option<u8> {
        Lookup::arguments(self, name)
    }
}

/// The numbers of arguments by the text of the name. The first heading of a name counts.
fn prepared(alloc: Global, headings: &[Heading]) -> Result<BTreeMap<String, u8>, NoMemory>
    ensures { IfOk result (λ m. Answers m headings.now) }
{
    let mut by_text = BTreeMap::new(alloc);
    for heading in headings {
        let text = heading.name.as_str();
        if !by_text.contains_key(text) {
            by_text.insert(String::from_str(alloc, text)?, heading.arguments)?;
        }
    }
    Ok(by_text)
}
