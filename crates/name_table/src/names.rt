//! Names: the globals, and the frames of the pending calls.

ghost use Rattle.std.specs.Prelude.{◌≡◌, ◌≢◌, ℕ, ℤ, ◌+◌, ◌<◌, [], ◌∷◌, length, map, reverse, false, IfOk, IfErr, OnOk, OnErr, IsOk, IsSome, Some, MatchOption};
ghost use Rattle.std.specs.List.{IsDistinct};
ghost use Rattle.std.specs.Option.{option_copied};
ghost use Rattle.array_store.specs.Stores.{StoreView, IsStore};
ghost use Rattle.array_store.specs.Counting.{Costs};
ghost use Rattle.array_store.specs.Follows.{Follows, Holds, both, none};
ghost use Rattle.drag_along.specs.Nodes.{named_by_leaf};
ghost use Rattle.drag_along.specs.Lawful.{IsLawfulLeaf};
ghost use Rattle.drag_along.specs.declared.leaves.Leaf.{Leaf as BoundLeaf};
ghost use Rattle.apl_model.specs.Environment.{Bindings, declared_in, erased, found_in, is_same_name, look_up, no_variables, set_name, set_names as names_set, with_frame, without_frame};
ghost use Rattle.apl_model.specs.Frames.{unset};
ghost use Rattle.apl_model.specs.Immediate.{in_byte_order};
ghost use Rattle.leaf_names.specs.Variables.{array_of, named_by_names, variables_of, AreLawfulNames, FillsOwner, FillOwners};
ghost use Rattle.name_table.specs.Scopes.{AreAllNames, IsInnermost};
ghost use Rattle.name_table.specs.Names.{elements_of, IsSet, IsSetFault, LetsGo};

use crate::leaves::{fitted, let_go};
use crate::scopes::Scope;
use apl_base::{Name, NoMemory};
use array_store::{BeginFault, Store};
use drag_along::Leaf;
use std::alloc::Global;
use std::marker::Model;

/// The globals and the frames of the pending calls, which contracts see as variables that are bound to leaves, with the
/// origin 1. A look-up uses the innermost frame that declares the name, else the globals.
#[derive(Drop)]
pub struct Names {
    alloc: Global,
    globals: Scope,
    // The innermost frame last.
    frames: Vec<Scope>,
}

impl Model for Names {
    ghost use Rattle.std.specs.Prelude.{pos, reverse};
    ghost use Rattle.std.specs.List.{All};
    ghost use Rattle.apl_model.specs.Environment.{Environment};
    ghost use Rattle.drag_along.specs.declared.leaves.Leaf.{Leaf as BoundLeaf};
    ghost use Rattle.name_table.specs.Scopes.{AreNames};

    ghost Value = { Environment BoundLeaf };

    ghost view = { λ n. record {
      globals = n.globals;
      frames = reverse n.frames.items;
      origin = pos 1;
    } };

    ghost invariant = { λ n. AreNames n.globals × All AreNames n.frames.items };
}

impl Names {
    /// No names and no frames. It takes no memory.
    pub fn new(alloc: Global) -> Names
        ensures { result ≡ no_variables }
    {
        Names {
            alloc,
            globals: Scope::new(alloc),
            frames: Vec::new(alloc),
        }
    }

    /// How many frames there are. The names of each, and the globals, differ.
    pub fn depth(&self) -> usize
        ensures depth { result ≡ length self.now.frames }
        ensures names { AreAllNames self.now }
    {
        self.frames.len()
    }

    /// What the name is bound to: `None` exactly where it is unset there. It takes no memory, and the time of one
    /// look-up in a table for each frame.
    pub fn get(&self, name: &Name) -> Option<&Leaf>
        ensures { option_copied result ≡ look_up self.now name.now }
    {
        match found(self.frames.as_slice(), name) {
            Some(bound) => bound.as_ref(),
            None => self.globals.get(name),
        }
    }

    /// The same as `get`.
    pub fn leaf_of(&self, name: &Name) -> Option<&Leaf>
        ensures { option_copied result ≡ look_up self.now name.now }
    {
        self.get(name)
    }

    /// Puts a leaf where the look-up finds the name, and answers the one that was there. It takes no memory.
    pub fn give(&mut self, name: &Name, leaf: Leaf) -> Leaf
        requires { IsSome (look_up self.old name.now) }
        ensures old { look_up self.old name.now ≡ Some result }
        ensures given { self.new ≡ set_name self.old name.now leaf }
        ensures leaves { (key : ℕ) → named_by_names self.new key + named_by_leaf result key
            ≡ named_by_names self.old key + named_by_leaf leaf key }
    {
        let Ok(Some(old)) = self.put(name, leaf) else {
            unreachable!()
        };
        old
    }

    /// Sets a name where the look-up finds it: in the innermost frame that declares it, else among the globals. A leaf
    /// that fills its owner is kept, any other is copied, so that no name keeps a large owner for a few of its cells.
    /// The leaf that the name had is let go. `WsFull` is that of the copy. After a refusal the names are as they were,
    /// and the given leaf is let go.
    pub fn set(&mut self, name: &Name, leaf: Leaf, store: &mut Store) -> Result<(), BeginFault>
        requires leaf { IsLawfulLeaf store.old leaf }
        requires lawful { AreLawfulNames store.old self.old }
        requires held { Holds store.old (both (named_by_names self.old) (named_by_leaf leaf)) }
        ensures set { OnOk result (IsSet store.old store.new self.old self.new name.now leaf) }
        ensures means { OnOk result ((origin : ℤ) → variables_of store.new origin self.new
            ≡ set_name (variables_of store.old origin self.old) name.now (array_of store.old leaf)) }
        ensures lawful { OnOk result (AreLawfulNames store.new self.new) }
        ensures fills { OnOk result (FillOwners store.old self.old
            → FillOwners store.new self.new) }
        ensures follows { OnOk result (Follows store.old store.new
            (both (named_by_names self.old) (named_by_leaf leaf)) (named_by_names self.new)) }
        ensures refused { IfErr result (IsSetFault store.old store.new leaf) }
        ensures unchanged { OnErr result (self.new ≡ self.old) }
        ensures released { OnErr result (Follows store.old store.new (named_by_leaf leaf) none) }
        ensures free { FillsOwner store.old leaf → store.new.counts ≡ store.old.counts }
        ensures costs { Costs store.old store.new (elements_of leaf) (elements_of leaf) 0 }
        ensures store { IsStore store.new }
    {
        let fitted = fitted(leaf, store)?;
        match self.put(name, fitted) {
            Ok(old) => {
                let_go(old, store);
                Ok(())
            }
            Err(fitted) => {
                fitted.release(store);
                Err(BeginFault::NoMemory)
            }
        }
    }

    // Puts a leaf where the look-up finds the name, or among the globals, and answers the one that was there. A name
    // that is set takes no memory. After want of memory the names are as they were, and the leaf comes back.
    fn put(&mut self, name: &Name, leaf: Leaf) -> Result<Option<Leaf>, Leaf>
        ensures old { IfOk result (λ old. old ≡ look_up self.old name.now) }
        ensures put { OnOk result (self.new ≡ set_name self.old name.now leaf) }
        ensures back { IfErr result (λ back. back ≡ leaf) }
        ensures unchanged { OnErr result (self.new ≡ self.old) }
        ensures known { IsSome (look_up self.old name.now) → IsOk result }
    {
        if let Some(at) = innermost(self.frames.as_slice(), name) {
            return Ok(self.frames[at].rebind(name, Some(leaf)));
        }
        if self.globals.declares(name) {
            return Ok(self.globals.rebind(name, Some(leaf)));
        }
        let Err(back) = self.globals.put_new(self.alloc, name, Some(leaf)) else {
            return Ok(None);
        };
        let Some(leaf) = back else { unreachable!() };
        Err(leaf)
    }

    /// Adds a frame in which these names are declared, each unset. After want of memory the names are as they were.
    pub fn bind(&mut self, declared: &[Name]) -> Result<(), NoMemory>
        requires { IsDistinct is_same_name declared.now }
        ensures bound { OnOk result (self.new ≡ with_frame (map unset declared.now) self.old) }
        ensures means { OnOk result ((store : StoreView) (origin : ℤ)
            → variables_of store origin self.new
            ≡ with_frame (map unset declared.now) (variables_of store origin self.old)) }
        ensures lawful { (store : StoreView) → AreLawfulNames store self.old
            → AreLawfulNames store self.new }
        ensures fills { (store : StoreView) → FillOwners store self.old
            → FillOwners store self.new }
        ensures leaves { (key : ℕ) → named_by_names self.new key ≡ named_by_names self.old key }
        ensures refused { OnErr result (self.new ≡ self.old) }
    {
        let frame = Scope::declaring(self.alloc, declared)?;
        self.frames.push(frame)?;
        Ok(())
    }

    /// Takes the innermost frame away and lets its leaves go. It takes no memory, and time linear in the frame.
    pub fn unwind(&mut self, store: &mut Store)
        requires frame { 0 < length self.old.frames }
        requires lawful { AreLawfulNames store.old self.old }
        requires held { Holds store.old (named_by_names self.old) }
        ensures unwound { self.new ≡ without_frame self.old }
        ensures means { (origin : ℤ) → variables_of store.new origin self.new
            ≡ without_frame (variables_of store.old origin self.old) }
        ensures leaves { LetsGo store.old store.new self.old self.new }
        ensures store { IsStore store.new }
    {
        let Some(frame) = self.frames.pop() else {
            unreachable!()
        };
        frame.release(store);
    }

    /// Makes a global unset and lets its leaf go. The name keeps its place in the order. It takes no memory.
    pub fn erase(&mut self, name: &Name, store: &mut Store)
        requires frames { self.old.frames ≡ [] }
        requires lawful { AreLawfulNames store.old self.old }
        requires held { Holds store.old (named_by_names self.old) }
        ensures erased { self.new ≡ erased (name.now ∷ []) self.old }
        ensures means { (origin : ℤ) → variables_of store.new origin self.new
            ≡ erased (name.now ∷ []) (variables_of store.old origin self.old) }
        ensures leaves { LetsGo store.old store.new self.old self.new }
        ensures store { IsStore store.new }
    {
        let_go(self.globals.unset(name), store);
    }

    /// The globals that are set, in the order of their bytes.
    pub fn set_names(&self) -> Result<Vec<Name>, NoMemory>
        ensures { IfOk result (λ names. names.items ≡ in_byte_order (names_set self.now.globals)) }
    {
        self.globals.set_names(self.alloc)
    }
}

// What a name is bound to in the innermost frame that declares it, where one does. The last frame is the innermost.
fn found<'a>(frames: &'a [Scope], name: &Name) -> Option<&'a Option<Leaf>>
    ensures { MatchOption result (declared_in (reverse frames.now) name.now ≡ false)
        (λ bound. (globals : Bindings BoundLeaf)
        → bound.now ≡ found_in (reverse frames.now) globals name.now) }
{
    for level in (0..frames.len()).rev() {
        if let Some(bound) = frames[level].find(name) {
            return Some(bound);
        }
    }
    None
}

// The place of the innermost frame that declares a name, where one does. The last frame is the innermost.
fn innermost(frames: &[Scope], name: &Name) -> Option<usize>
    ensures { MatchOption result (declared_in (reverse frames.now) name.now ≡ false)
        (IsInnermost frames.now name.now) }
{
    for at in (0..frames.len()).rev() {
        if frames[at].declares(name) {
            return Some(at);
        }
    }
    None
}
