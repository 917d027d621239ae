//! The code of a statement.
#![tactic(auto, using(apl_model::proofs::Bridge::bridges))]

ghost use Rattle.std.specs.Prelude.{◌≡◌, ◌++◌, OnOk, IfOk};
ghost use Rattle.apl_model.specs.Mirror.{tree_of, statement_of};
ghost use Rattle.apl_compile.specs.Code.{ending, printing, whole_code, code_on, line_of, statement_line, code_of};

use crate::codes::{Code, Instruction, Op};
use crate::expressions::{call_op, emit, emit_argument, put};
use apl_base::{NoMemory, Place};
use apl_model::{Expr, Statement};
use sqlite_items::Items;
use std::alloc::Global;

/// The code of a statement: the instructions of its tree in the order of evaluation, each with its place, then a print
/// where the value is printed, and the end. Print and end have the line of the statement and column 0; the empty
/// statement, which tells no line, has line 0.
pub fn compile(alloc: Global, tree: &Statement) -> Result<Code, NoMemory>
    ensures { IfOk result (λ code. code.instructions ≡ code_of (statement_of tree.now)) }
{
    compiled_on(alloc, statement_line(tree), tree)
}

// The code of a statement that stands on a line.
pub(crate) fn compiled_on(alloc: Global, line: u32, tree: &Statement) -> Result<Code, NoMemory>
    ensures { IfOk result (λ code. code.instructions ≡ code_on line (statement_of tree.now)) }
{
    let mut instructions = Items::new(alloc);
    match tree {
        Statement::Nothing => put_end(line, &mut instructions)?,
        Statement::Branch { value, place } => {
            emit(alloc, value, &mut instructions)?;
            put(&mut instructions, *place, Op::Goto)?;
            put_end(line, &mut instructions)?;
        }
        Statement::Value { value } => emit_whole(alloc, line, value, &mut instructions)?,
    }
    Ok(Code { instructions })
}

// The code of an expression that is a whole statement.
fn emit_whole(
    alloc: Global,
    line: u32,
    e: &Expr,
    code: &mut Items<Instruction>,
) -> Result<(), NoMemory>
    ensures { OnOk result (code.new ≡ code.old ++ whole_code line (tree_of e.now)) }
{
    match e {
        Expr::Call {
            f,
            left,
            right,
            place,
        } => {
            emit_argument(alloc, right, code)?;
            emit_argument(alloc, left, code)?;
            put(code, *place, call_op(alloc, f, left, right, true)?)?;
            put_print(line, code)
        }
        Expr::Assign { .. } | Expr::IndexAssign { .. } | Expr::Output { .. } => {
            emit(alloc, e, code)?;
            put_end(line, code)
        }
        Expr::Lit { .. }
        | Expr::Name { .. }
        | Expr::Paren { .. }
        | Expr::One { .. }
        | Expr::Two { .. }
        | Expr::Reduce { .. }
        | Expr::Outer { .. }
        | Expr::Inner { .. }
        | Expr::Index { .. } => {
            emit(alloc, e, code)?;
            put_print(line, code)
        }
    }
}

// The end of a statement.
fn put_end(line: u32, code: &mut Items<Instruction>) -> Result<(), NoMemory>
    ensures { OnOk result (code.new ≡ code.old ++ ending line) }
{
    put(code, Place { line, column: 0 }, Op::End)
}

// The print of a statement's value, and its end.
fn put_print(line: u32, code: &mut Items<Instruction>) -> Result<(), NoMemory>
    ensures { OnOk result (code.new ≡ code.old ++ printing line) }
{
    put(code, Place { line, column: 0 }, Op::Print)?;
    put_end(line, code)
}

// The line that a statement tells.
fn statement_line(tree: &Statement) -> u32
    ensures { result ≡ statement_line (statement_of tree.now) }
{
    match tree {
        Statement::Nothing => 0,
        Statement::Branch { place, .. } => place.line,
        Statement::Value { value } => line_of(value),
    }
}

// The line of an expression's place.
fn line_of(e: &Expr) -> u32
    ensures { result ≡ line_of (tree_of e.now) }
{
    match e {
        Expr::Lit { place, .. }
        | Expr::Name { place, .. }
        | Expr::Call { place, .. }
        | Expr::Paren { place, .. }
        | Expr::One { place, .. }
        | Expr::Two { place, .. }
        | Expr::Reduce { place, .. }
        | Expr::Outer { place, .. }
        | Expr::Inner { place, .. }
        | Expr::Index { place, .. }
        | Expr::Assign { place, .. }
        | Expr::IndexAssign { place, .. }
        | Expr::Output { place, .. } => place.line,
    }
}
