//! Sets of names.
ghost use Rattle.std.specs.Prelude.{◌≡◌, ◌↔◌, ◌⊎◌, ℕ, List, [], IsTrue, IfOk, OnOk};
ghost use Rattle.std.specs.Bool.{OnFalse};
ghost use Rattle.std.specs.List.{IsAmong};

use apl_base::{Name, NoMemory};
use std::alloc::Global;
use std::collections::BTreeSet;
use std::marker::Model;

/// Names that were met, which contracts see as the list of these names, in some order.
#[derive(Drop)]
pub(crate) struct NameSet {
    texts: BTreeSet<String>,
}

impl Model for NameSet {
    ghost use Rattle.std.specs.Prelude.{◌≡◌, ℕ, List, map};
    ghost use Rattle.std.specs.List.{AllByRecursion};
    ghost use Rattle.std.specs.Str.{chars, encode_utf8_all};
    ghost use Rattle.std.specs.String.{string_bytes};

    ghost Value = { List (List ℕ) };

    ghost view = { λ s. map (λ t. chars (string_bytes t)) s.texts.keys };

    ghost invariant = { λ s. AllByRecursion (λ t. encode_utf8_all (chars (string_bytes t)) ≡ string_bytes t) s.texts.keys };
}

impl NameSet {
    /// No names.
    pub(crate) fn new(alloc: Global) -> NameSet
        ensures { result ≡ [] }
    {
        NameSet {
            texts: BTreeSet::new(alloc),
        }
    }

    /// Adds a name, and says whether it was not met before.
    pub(crate) fn add(&mut self, alloc: Global, name: &Name) -> Result<bool, NoMemory>
        ensures added { IfOk result (λ added. IsTrue added ↔ ¬ (IsAmong self.old name.now)) }
        ensures met { IfOk result (λ added. OnFalse added (IsAmong self.old name.now)) }
        ensures names { OnOk result ((n : List ℕ) → IsAmong self.new n
            ↔ ((n ≡ name.now) ⊎ IsAmong self.old n)) }
    {
        let text = String::from_str(alloc, name.as_str())?;
        let added = self.texts.insert(text)?;
        Ok(added)
    }
}
