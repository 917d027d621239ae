//! Instructions that change entries alone.

ghost use Rattle.std.specs.Prelude.{◌≡◌, ◌<◌, ◌≤◌, length, IfErr, OnOk};
ghost use Rattle.apl_base.specs.declared.faults.Place.{Place};
ghost use Rattle.apl_model.specs.Grammar.{IsLiteral};
ghost use Rattle.apl_model.specs.declared.functions.DyaFn.TheVariants as dyadic_fn;
ghost use Rattle.apl_model.specs.declared.functions.MonFn.TheVariants as monadic_fn;
ghost use Rattle.apl_compile.specs.declared.codes.Op.TheVariants as op;
ghost use Rattle.pending_steps.specs.Steps.{Steps, IsHalted, IsNotComputed, Reaches};
ghost use Rattle.machine_state.specs.Steps.{pending, IsLawfulBeside, IsSameRun, Keeps};

use crate::machines::Machine;
use apl_base::{Dya, Mon, Place};
use apl_model::Literal;
use pending_steps::{Halt, push_literal, scalar_one, scalar_two};

impl Machine {
    /// A literal comes as the newest entry. Before room is asked for, every entry that may fail is computed.
    pub fn literal(&mut self, literal: &Literal) -> Result<(), Halt>
        requires literal { IsLiteral literal.now }
        requires lawful { IsLawfulBeside self.old }
        ensures step { OnOk result ((place : Place)
            → Steps (record { place = place; op = op.Lit literal.now }) 0 1
            (pending self.old) (pending self.new)) }
        ensures keeps { Reaches result (Keeps self.old self.new) }
        ensures halted { IfErr result (IsNotComputed self.old.store.limit (pending self.old)) }
        ensures run { IsSameRun self.old self.new }
    {
        let alloc = *self.costs.allocator();
        push_literal(alloc, literal, &mut self.stack, &mut self.store)
    }

    /// A scalar function of the newest entry, deferred.
    pub fn monadic_scalar(&mut self, f: Mon, place: Place) -> Result<(), Halt>
        requires operand { 0 < length self.old.stack }
        requires lawful { IsLawfulBeside self.old }
        ensures step { OnOk result
            (Steps (record { place = place; op = op.Mon (monadic_fn.Scalar f) }) 1 1
            (pending self.old) (pending self.new)) }
        ensures keeps { Reaches result (Keeps self.old self.new) }
        ensures halted { IfErr result
            (IsHalted (record { place = place; op = op.Mon (monadic_fn.Scalar f) }) 1
            self.old.store.limit (pending self.old)) }
        ensures run { IsSameRun self.old self.new }
    {
        let alloc = *self.costs.allocator();
        scalar_one(alloc, f, place, &mut self.stack, &mut self.store)
    }

    /// A scalar function of the two newest entries, the left operand the newest, deferred.
    pub fn dyadic_scalar(&mut self, f: Dya, place: Place) -> Result<(), Halt>
        requires operands { 2 ≤ length self.old.stack }
        requires lawful { IsLawfulBeside self.old }
        ensures step { OnOk result
            (Steps (record { place = place; op = op.Dya (dyadic_fn.Scalar f) }) 2 1
            (pending self.old) (pending self.new)) }
        ensures keeps { Reaches result (Keeps self.old self.new) }
        ensures halted { IfErr result
            (IsHalted (record { place = place; op = op.Dya (dyadic_fn.Scalar f) }) 2
            self.old.store.limit (pending self.old)) }
        ensures run { IsSameRun self.old self.new }
    {
        let alloc = *self.costs.allocator();
        scalar_two(alloc, f, place, &mut self.stack, &mut self.store)
    }
}
