//! The names of the globals, or of one frame.

ghost use Rattle.std.specs.Prelude.{◌≡◌, ◌+◌, ◌^◌, ◌<◌, [], length, map, false, true, MatchOption, MatchResult, IfOk, IfErr, IfSome, OnOk, OnErr, Some};
ghost use Rattle.std.specs.List.{IsDistinct};
ghost use Rattle.std.specs.Option.{option_copied};
ghost use Rattle.array_store.specs.Stores.{IsStore};
ghost use Rattle.array_store.specs.Follows.{Follows, Holds, none};
ghost use Rattle.apl_model.specs.Environment.{bound_in, bound_to, declares, is_same_name, set_names, unset_global};
ghost use Rattle.apl_model.specs.Frames.{unset};
ghost use Rattle.apl_model.specs.Immediate.{in_byte_order};
ghost use Rattle.leaf_names.specs.Variables.{named_by_bindings};
ghost use Rattle.name_table.specs.Scopes.{AreNames};

use crate::leaves::let_go;
use apl_base::{Name, NoMemory};
use array_store::Store;
use drag_along::Leaf;
use indexmap::IndexMap;
use std::alloc::{AllocFailed, Global};
use std::marker::Model;
use std::mem;

// Names in the order in which they came, each bound to a leaf or unset.
#[derive(Drop)]
pub(crate) struct Scope {
    table: IndexMap<String, Option<Leaf>>,
}

impl Model for Scope {
    ghost use Rattle.apl_model.specs.Environment.{Bindings};
    ghost use Rattle.drag_along.specs.declared.leaves.Leaf.{Leaf as BoundLeaf};
    ghost use Rattle.name_table.specs.Scopes.{bindings_of, IsTable};

    ghost Value = { Bindings BoundLeaf };

    ghost view = { λ s. bindings_of s.table.entries };

    ghost invariant = { λ s. IsTable s.table.entries };
}

impl Scope {
    // No names. It takes no memory.
    pub(crate) fn new(alloc: Global) -> Scope
        ensures empty { result ≡ [] }
        ensures names { AreNames result }
    {
        Scope {
            table: IndexMap::new(alloc),
        }
    }

    // No names, and room for so many.
    fn with_room(alloc: Global, count: usize) -> Result<Scope, NoMemory>
        ensures empty { IfOk result (λ s. s ≡ []) }
        ensures names { IfOk result AreNames }
    {
        let table = IndexMap::with_capacity(alloc, count)?;
        Ok(Scope { table })
    }

    // These names, each unset.
    pub(crate) fn declaring(alloc: Global, declared: &[Name]) -> Result<Scope, NoMemory>
        requires { IsDistinct is_same_name declared.now }
        ensures unset { IfOk result (λ s. s ≡ map unset declared.now) }
        ensures names { IfOk result AreNames }
    {
        let mut scope = Scope::with_room(alloc, declared.len())?;
        for name in declared {
            let Ok(()) = scope.put_new(alloc, name, None) else {
                return Err(NoMemory);
            };
        }
        Ok(scope)
    }

    // Whether the name stands here, bound or unset.
    pub(crate) fn declares(&self, name: &Name) -> bool
        ensures { result ≡ declares self.now name.now }
    {
        self.table.contains_key(name.as_str())
    }

    // What the name is bound to here, or that it is unset, where it stands here.
    pub(crate) fn find(&self, name: &Name) -> Option<&Option<Leaf>>
        ensures none { MatchOption result (declares self.now name.now ≡ false)
            (λ _. declares self.now name.now ≡ true) }
        ensures bound { IfSome result (λ bound. bound.now ≡ bound_in self.now name.now) }
    {
        self.table.get(name.as_str())
    }

    // What the name is bound to here: `None` where it is unset or not among the names.
    pub(crate) fn get(&self, name: &Name) -> Option<&Leaf>
        ensures { option_copied result ≡ bound_in self.now name.now }
    {
        match self.table.get(name.as_str()) {
            Some(bound) => bound.as_ref(),
            None => None,
        }
    }

    // Binds a name that stands here anew, or makes it unset, and answers what it was bound to. It takes no memory.
    pub(crate) fn rebind(&mut self, name: &Name, bound: Option<Leaf>) -> Option<Leaf>
        requires { declares self.old name.now ≡ true }
        ensures bound { self.new ≡ bound_to self.old name.now bound }
        ensures old { result ≡ bound_in self.old name.now }
        ensures names { AreNames self.new }
    {
        let Some(slot) = self.table.get_mut(name.as_str()) else {
            unreachable!()
        };
        mem::replace(slot, bound)
    }

    // Makes a name unset, which keeps its place, and answers what it was bound to. It takes no memory.
    pub(crate) fn unset(&mut self, name: &Name) -> Option<Leaf>
        ensures unset { self.new ≡ unset_global self.old name.now }
        ensures old { result ≡ bound_in self.old name.now }
        ensures names { AreNames self.old → AreNames self.new }
    {
        if self.declares(name) {
            self.rebind(name, None)
        } else {
            None
        }
    }

    // Puts a name that doesn't stand here at the end. After want of memory the names are as they were, and what the
    // name was to be bound to comes back.
    pub(crate) fn put_new(
        &mut self,
        alloc: Global,
        name: &Name,
        bound: Option<Leaf>,
    ) -> Result<(), Option<Leaf>>
        requires { declares self.old name.now ≡ false }
        ensures bound { OnOk result (self.new ≡ bound_to self.old name.now bound) }
        ensures names { AreNames self.new }
        ensures back { IfErr result (λ back. back ≡ bound) }
        ensures unchanged { OnErr result (self.new ≡ self.old) }
    {
        // It tells the proof that the names are few.
        let _len = self.table.len();
        let Ok(text) = String::from_str(alloc, name.as_str()) else {
            return Err(bound);
        };
        given_back(self.table.insert(text, bound))
    }

    // The names that are set, in the order of their bytes.
    pub(crate) fn set_names(&self, alloc: Global) -> Result<Vec<Name>, NoMemory>
        ensures { IfOk result (λ names. names.items ≡ in_byte_order (set_names self.now)) }
    {
        let mut texts = Vec::new(alloc);
        for at in 0..self.table.len() {
            let Some((text, bound)) = self.table.get_index(at) else {
                unreachable!()
            };
            if bound.is_some() {
                texts.push(text.as_str())?;
            }
        }
        texts.sort()?;
        let mut names = Vec::new(alloc);
        for text in texts.as_slice() {
            names.push(Name::of(alloc, text)?)?;
        }
        Ok(names)
    }

    // Lets all leaves go.
    pub(crate) fn release(self, store: &mut Store)
        requires { Holds store.old (named_by_bindings self) }
        ensures follows { Follows store.old store.new (named_by_bindings self) none }
        ensures counts { store.new.counts ≡ store.old.counts }
        ensures store { IsStore store.new }
    {
        // It tells the proof that the store is one.
        let _counts = store.counts();
        let Scope { mut table } = self;
        while let Some((_, bound)) = table.pop() {
            let_go(bound, store);
        }
    }
}

// What a table that refused a name gives back for it.
fn given_back(
    answer: Result<Option<Option<Leaf>>, AllocFailed<(String, Option<Leaf>)>>,
) -> Result<(), Option<Leaf>>
    ensures { MatchResult answer (λ _. result ≡ Ok (record {}))
        (λ refused. result ≡ Err refused.value.1) }
{
    match answer {
        Ok(_) => Ok(()),
        Err(refused) => Err(refused.value.1),
    }
}
