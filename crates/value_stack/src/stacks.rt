//! The stack of pending expressions.

ghost use Rattle.std.specs.Prelude.{◌≡◌, ℕ, ◌+◌, ◌<◌, ◌∷◌, ◌++◌, [], Some, length, ◌↔◌, IsTrue, slice_get, slice_set, MatchOption, OnOk, OnErr};
ghost use Rattle.std.specs.List.{AllByRecursion};
ghost use Rattle.drag_along.specs.Segments.{named_by, IsSegment};
ghost use Rattle.value_stack.specs.Stacks.{named_on, Reads, MayFail, IsLeastOrNone};

use apl_base::NoMemory;
use array_store::OwnerId;
use drag_along::Segment;
use std::alloc::Global;
use std::marker::Model;
use std::mem;

/// Pending expressions, which contracts see as a list, the oldest first.
#[derive(Drop)]
pub struct Stack {
    entries: Vec<Segment>,
}

impl Model for Stack {
    ghost use Rattle.std.specs.Prelude.{List};
    ghost use Rattle.std.specs.List.{AllByRecursion};
    ghost use Rattle.drag_along.specs.Segments.{SegmentView, IsSegment};

    ghost Value = { List SegmentView };

    ghost view = { λ s. s.entries.items };

    ghost invariant = { λ s. AllByRecursion IsSegment s.entries.items };
}

impl Stack {
    /// An empty stack. It takes no memory.
    pub fn new(alloc: Global) -> Stack
        ensures { result ≡ [] }
    {
        Stack {
            entries: Vec::new(alloc),
        }
    }

    /// Puts an entry on top. After want of memory the stack is as it was, and the entry is gone.
    pub fn push(&mut self, s: Segment) -> Result<(), NoMemory>
        ensures ok { OnOk result (self.new ≡ self.old ++ s ∷ []) }
        ensures leaves { OnOk result ((key : ℕ)
            → named_on self.new key ≡ named_on self.old key + named_by s key) }
        ensures err { OnErr result (self.new ≡ self.old) }
    {
        self.entries.push(s)?;
        Ok(())
    }

    /// Takes the newest entry off: `None` exactly where there is none.
    pub fn pop(&mut self) -> Option<Segment>
        ensures taken { MatchOption result ((self.old ≡ []) × (self.new ≡ []))
            (λ s. self.old ≡ self.new ++ s ∷ []) }
        ensures leaves { MatchOption result
            ((key : ℕ) → named_on self.new key ≡ named_on self.old key)
            (λ s. (key : ℕ) → named_on self.new key + named_by s key ≡ named_on self.old key) }
    {
        self.entries.pop()
    }

    /// The number of entries. Each is a segment.
    pub fn len(&self) -> usize
        ensures value { result ≡ length self.now }
        ensures segments { AllByRecursion IsSegment self.now }
    {
        self.entries.len()
    }

    /// Whether there is no entry.
    pub fn is_empty(&self) -> bool
        ensures { IsTrue result ↔ (self.now ≡ []) }
    {
        self.entries.is_empty()
    }

    /// The entry at a position, counted from the oldest one.
    pub fn entry(&self, at: usize) -> &Segment
        requires { at < length self.now }
        ensures { slice_get self.now at ≡ Some result.now }
    {
        &self.entries[at]
    }

    /// Puts an entry in the place of another, which it gives back. All other entries stay.
    pub fn replace(&mut self, at: usize, s: Segment) -> Segment
        requires { at < length self.old }
        ensures old { slice_get self.old at ≡ Some result }
        ensures put { self.new ≡ slice_set self.old at s }
        ensures leaves { (key : ℕ) → named_on self.new key + named_by result key
            ≡ named_on self.old key + named_by s key }
    {
        mem::replace(&mut self.entries[at], s)
    }

    /// The least position, from one on, whose entry reads an owner: `None` exactly where there is none.
    pub fn pending_on(&self, owner: OwnerId, from: usize) -> Option<usize>
        ensures { IsLeastOrNone (Reads owner) self.now from result }
    {
        for position in from..self.entries.len() {
            if self.entries[position].names(owner) {
                return Some(position);
            }
        }
        None
    }

    /// The least position, from one on, whose entry may fail: `None` exactly where there is none.
    pub fn failing_from(&self, from: usize) -> Option<usize>
        ensures { IsLeastOrNone MayFail self.now from result }
    {
        for at in from..self.entries.len() {
            if self.entries[at].may_fail {
                return Some(at);
            }
        }
        None
    }
}
