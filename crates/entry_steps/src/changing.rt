//! Instructions that change entries alone.

ghost use Rattle.std.specs.Prelude.{ℕ, OnOk, IfErr};
ghost use Rattle.array_store.specs.Follows.{none};
ghost use Rattle.pending_steps.specs.Steps.{Reaches};
ghost use Rattle.machine_state.specs.StandsFor.{IsLawfulMachine};
ghost use Rattle.machine_state.specs.Steps.{pending, IsSameRun, Keeps};
ghost use Rattle.entry_steps.specs.Sound.{ChangesEntries, HasLawfulLiteral};
ghost use Rattle.entry_steps.specs.Changing.{IsReady, ChangesAll, IsHaltedBefore};

use crate::ones::{monadic, reduce};
use crate::subscripts::index;
use crate::twos::{dyadic, multiply, multiply_all};
use apl_compile::{Instruction, Op};
use machine_state::Machine;
use pending_steps::Halt;

/// Does an instruction that changes entries alone: a literal, the value of a name, a function, a product or a subscript.
/// The newest entries, its operands, give way to its result, as they do in evaluation. Where it halts, evaluation ended at
/// that error, or room or memory is wanting.
pub fn change_entries(instruction: &Instruction, machine: &mut Machine) -> Result<(), Halt>
    requires entries { ChangesEntries instruction.now.op }
    requires literal { HasLawfulLiteral instruction.now.op }
    requires ready { (base : ℕ) × IsReady instruction.now.op base (pending machine.old) }
    requires lawful { IsLawfulMachine machine.old none }
    ensures changes { OnOk result (ChangesAll instruction.now machine.old machine.new) }
    ensures keeps { Reaches result (Keeps machine.old machine.new) }
    ensures halted { IfErr result (IsHaltedBefore instruction.now machine.old) }
    ensures run { IsSameRun machine.old machine.new }
{
    let place = instruction.place;
    match &instruction.op {
        Op::Lit { literal } => machine.literal(literal),
        Op::Name { name } => machine.name(name, place),
        Op::Mon { f } => monadic(*f, place, machine),
        Op::Dya { f } => dyadic(*f, place, machine),
        Op::Red { f, axis } => reduce(*f, *axis, place, machine),
        Op::Outer { f } => multiply_all(*f, place, machine),
        Op::Inner { f, g } => multiply(*f, *g, place, machine),
        Op::Index { mask } => index(mask.as_slice(), place, machine),
        Op::Asg { .. } => unreachable!(),
        Op::Iasg { .. } => unreachable!(),
        Op::Call { .. } => unreachable!(),
        Op::Show => unreachable!(),
        Op::Print => unreachable!(),
        Op::Goto => unreachable!(),
        Op::End => unreachable!(),
    }
}
