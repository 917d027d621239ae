//! The value of a name as an instruction.

ghost use Rattle.std.specs.Prelude.{IfErr, OnOk};
ghost use Rattle.apl_compile.specs.declared.codes.Op.TheVariants as op;
ghost use Rattle.pending_steps.specs.Steps.{Reaches};
ghost use Rattle.machine_state.specs.Steps.{pending, HasFewInHand, IsHaltedAt, IsSameRun, IsUnset, Keeps, StepsAt};

use crate::machines::Machine;
use apl_base::{ErrorKind, Name, Place};
use pending_steps::{Halt, push_held, settle_entries};

impl Machine {
    /// The value of a name comes as the newest entry: its leaf, held once more. VALUE ERROR where the name is unset,
    /// after the fault of any entry.
    pub fn name(&mut self, name: &Name, place: Place) -> Result<(), Halt>
        requires lawful { HasFewInHand self.old }
        ensures step { OnOk result
            (StepsAt self.old (record { place = place; op = op.Name name.now }) 0 1
            (pending self.old) (pending self.new)) }
        ensures keeps { Reaches result (Keeps self.old self.new) }
        ensures halted { IfErr result
            (IsHaltedAt self.old (record { place = place; op = op.Name name.now })
            (pending self.old)) }
        ensures run { IsSameRun self.old self.new }
    {
        let alloc = *self.costs.allocator();
        // They tell the proof how many leaves there can be.
        let _depth = self.names.depth();
        let _count = self.stack.len();
        match self.names.get(name) {
            Some(leaf) => {
                push_held(alloc, leaf, &mut self.stack, &mut self.store)?;
                Ok(())
            }
            None => Err(self.unset(place)),
        }
    }

    // The error of a name that is unset, after the fault of any entry.
    fn unset(&mut self, place: Place) -> Halt
        requires lawful { HasFewInHand self.old }
        ensures halted { IsUnset self.old place result }
        ensures keeps { Keeps self.old self.new }
        ensures run { IsSameRun self.old self.new }
    {
        let alloc = *self.costs.allocator();
        match settle_entries(alloc, &mut self.stack, &mut self.store) {
            Ok(()) => Halt::Error {
                kind: ErrorKind::Value,
                place,
            },
            Err(halt) => halt,
        }
    }
}
