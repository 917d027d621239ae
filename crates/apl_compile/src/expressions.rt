//! The code of an expression.
#![tactic(auto, using(apl_model::proofs::Bridge::bridges))]

ghost use Rattle.std.specs.Prelude.{◌≡◌, ◌++◌, OnOk, IfOk};
ghost use Rattle.apl_model.specs.Mirror.{tree_of};
ghost use Rattle.apl_model.proofs.Bridge.{slot_with, positions_with};
ghost use Rattle.apl_compile.specs.Code.{at, arguments, mask_of, own_code, parts_code, expression_code};
ghost use Rattle.apl_compile.specs.Code.{slot_code, positions_code};

use crate::codes::{Instruction, Op};
use apl_base::{Dya, Name, NoMemory, Place};
use apl_model::{Axis, Expr, Literal};
use sqlite_items::{Boxed, Items};
use std::alloc::Global;

// Puts the code of an expression behind the instructions: that of its parts, then its own instruction.
#[cycle(emit)]
pub(crate) fn emit(alloc: Global, e: &Expr, code: &mut Items<Instruction>) -> Result<(), NoMemory>
    ensures { OnOk result (code.new ≡ code.old ++ expression_code (tree_of e.now)) }
{
    emit_parts(alloc, e, code)?;
    put_own(alloc, e, code)
}

// The code of the parts of an expression: the one on the right first, and positions before their array.
#[cycle(emit)]
fn emit_parts(alloc: Global, e: &Expr, code: &mut Items<Instruction>) -> Result<(), NoMemory>
    ensures { OnOk result (code.new ≡ code.old ++ parts_code (tree_of e.now)) }
{
    match e {
        Expr::Lit { .. } | Expr::Name { .. } => Ok(()),
        Expr::Paren { inner: part, .. }
        | Expr::One { right: part, .. }
        | Expr::Reduce { right: part, .. }
        | Expr::Assign { value: part, .. }
        | Expr::Output { value: part, .. } => emit(alloc, part.get(), code),
        Expr::Two { left, right, .. }
        | Expr::Outer { left, right, .. }
        | Expr::Inner { left, right, .. } => {
            emit(alloc, right.get(), code)?;
            emit(alloc, left.get(), code)
        }
        Expr::Call { left, right, .. } => {
            emit_argument(alloc, right, code)?;
            emit_argument(alloc, left, code)
        }
        Expr::Index {
            array,
            positions: read,
            ..
        } => {
            emit_positions(alloc, read.as_slice(), code)?;
            emit(alloc, array.get(), code)
        }
        Expr::IndexAssign {
            positions: written,
            value,
            ..
        } => {
            emit(alloc, value.get(), code)?;
            emit_positions(alloc, written.as_slice(), code)
        }
    }
}

// The code of an argument, where there is one.
#[cycle(emit)]
pub(crate) fn emit_argument(
    alloc: Global,
    argument: &Option<Boxed<Expr>>,
    code: &mut Items<Instruction>,
) -> Result<(), NoMemory>
    ensures { OnOk result (code.new ≡ code.old ++ slot_code (slot_with argument.now)) }
{
    match argument {
        Some(e) => emit(alloc, e.get(), code),
        None => Ok(()),
    }
}

// The code of positions, from the last to the first.
#[cycle(emit)]
fn emit_positions(
    alloc: Global,
    positions: &[Option<Expr>],
    code: &mut Items<Instruction>,
) -> Result<(), NoMemory>
    ensures { OnOk result (code.new ≡ code.old ++ positions_code (positions_with positions.now)) }
{
    for at in (0..positions.len()).rev() {
        if let Some(e) = &positions[at] {
            emit(alloc, e, code)?;
        }
    }
    Ok(())
}

// The instruction of a node itself. A parenthesis has none.
fn put_own(alloc: Global, e: &Expr, code: &mut Items<Instruction>) -> Result<(), NoMemory>
    ensures { OnOk result (code.new ≡ code.old ++ own_code (tree_of e.now)) }
{
    match e {
        Expr::Paren { .. } => Ok(()),
        Expr::Lit { literal, place } => put(code, *place, literal_op(alloc, literal)?),
        Expr::Name { name, place } => put(code, *place, name_op(alloc, name)?),
        Expr::One { f, place, .. } => put(code, *place, Op::Mon { f: *f }),
        Expr::Two { f, place, .. } => put(code, *place, Op::Dya { f: *f }),
        Expr::Reduce { f, axis, place, .. } => put(code, *place, reduction_op(*f, *axis)),
        Expr::Outer { f, place, .. } => put(code, *place, Op::Outer { f: *f }),
        Expr::Inner { f, g, place, .. } => put(code, *place, inner_op(*f, *g)),
        Expr::Output { place, .. } => put(code, *place, Op::Show),
        Expr::Assign { name, place, .. } => put(code, *place, assign_op(alloc, name)?),
        Expr::Call {
            f,
            left,
            right,
            place,
        } => { put(code, *place, call_op(alloc, f, left, right, false)?) }
        Expr::Index {
            positions,
            place,
            ..
        } => { put(code, *place, index_op(alloc, positions.as_slice())?) }
        Expr::IndexAssign {
            name,
            positions,
            place,
            ..
        } => { put(code, *place, replace_op(alloc, name, positions.as_slice())?) }
    }
}

// One instruction more.
pub(crate) fn put(code: &mut Items<Instruction>, place: Place, op: Op) -> Result<(), NoMemory>
    ensures { OnOk result (code.new ≡ code.old ++ at place op) }
{
    code.push(Instruction { place, op })?;
    Ok(())
}

// The instruction of a literal.
fn literal_op(alloc: Global, literal: &Literal) -> Result<Op, NoMemory>
    ensures { IfOk result (λ op. op ≡ Op.Lit literal.now) }
{
    Ok(Op::Lit {
        literal: Literal {
            kind: literal.kind,
            cells: Items::from_slice(alloc, literal.cells.as_slice())?,
        },
    })
}

// The instruction of a name.
fn name_op(alloc: Global, name: &Name) -> Result<Op, NoMemory>
    ensures { IfOk result (λ op. op ≡ Op.Name name.now) }
{
    Ok(Op::Name {
        name: name.copy(alloc)?,
    })
}

// The instruction of a reduction.
fn reduction_op(f: Dya, axis: Axis) -> Op
    ensures { result ≡ Op.Red f axis }
{
    Op::Red { f, axis }
}

// The instruction of an inner product.
fn inner_op(f: Dya, g: Dya) -> Op
    ensures { result ≡ Op.Inner f g }
{
    Op::Inner { f, g }
}

// The instruction of an assignment.
fn assign_op(alloc: Global, name: &Name) -> Result<Op, NoMemory>
    ensures { IfOk result (λ op. op ≡ Op.Asg name.now) }
{
    Ok(Op::Asg {
        name: name.copy(alloc)?,
    })
}

// The instruction of a subscript.
fn index_op(alloc: Global, positions: &[Option<Expr>]) -> Result<Op, NoMemory>
    ensures { IfOk result (λ op. op ≡ Op.Index (mask_of (positions_with positions.now))) }
{
    Ok(Op::Index {
        mask: mask_of(alloc, positions)?,
    })
}

// The instruction of an indexed assignment.
fn replace_op(alloc: Global, name: &Name, positions: &[Option<Expr>]) -> Result<Op, NoMemory>
    ensures { IfOk result (λ op. op ≡ Op.Iasg name.now (mask_of (positions_with positions.now))) }
{
    Ok(Op::Iasg {
        name: name.copy(alloc)?,
        mask: mask_of(alloc, positions)?,
    })
}

// The instruction of a call with these arguments; `whole` is set where it needs no result.
pub(crate) fn call_op(
    alloc: Global,
    f: &Name,
    left: &Option<Boxed<Expr>>,
    right: &Option<Boxed<Expr>>,
    whole: bool,
) -> Result<Op, NoMemory>
    ensures { IfOk result (λ op. op
        ≡ Op.Call f.now (arguments (slot_with left.now) (slot_with right.now)) whole) }
{
    Ok(Op::Call {
        f: f.copy(alloc)?,
        arguments: argument_count(left, right),
        whole,
    })
}

// How many arguments a call has.
fn argument_count(left: &Option<Boxed<Expr>>, right: &Option<Boxed<Expr>>) -> u8
    ensures { result ≡ arguments (slot_with left.now) (slot_with right.now) }
{
    match (left, right) {
        (None, None) => 0,
        (None, Some(_)) => 1,
        (Some(_), Some(_)) => 2,
        (Some(_), None) => 3,
    }
}

// Which positions are there.
fn mask_of(alloc: Global, positions: &[Option<Expr>]) -> Result<Items<bool>, NoMemory>
    ensures { IfOk result (λ mask. mask ≡ mask_of (positions_with positions.now)) }
{
    let mut mask = Items::new(alloc);
    for position in positions {
        mask.push(position.is_some())?;
    }
    Ok(mask)
}
