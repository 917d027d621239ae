//! The two calls with ample memory.

use crate::codes::{Code, Op};
use crate::compiler::compile;
use crate::scripts::compile_script;
use apl_base::{Cell, Dya, Kind, Place};
use apl_model::{DyaFn, Expr, Literal, Script, ScriptItem, Statement};
use sqlite_items::{Boxed, Items};
use std::alloc::Global;
use std::test::Fail;

// A number at a column.
fn number(alloc: Global, number: Cell, column: u32) -> Result<Boxed<Expr>, Fail> {
    let mut cells = Items::new(alloc);
    cells.push(number)?;
    let literal = Literal {
        kind: Kind::Num,
        cells,
    };
    let place = Place { line: 1, column };
    Ok(Boxed::new(alloc, Expr::Lit { literal, place })?)
}

// 2+3
fn sum(alloc: Global) -> Result<Statement, Fail> {
    let value = Expr::Two {
        f: DyaFn::Scalar { f: Dya::Add },
        left: number(alloc, 2, 1)?,
        right: number(alloc, 3, 3)?,
        place: Place { line: 1, column: 2 },
    };
    Ok(Statement::Value { value })
}

// Whether there are five instructions, of which the third is the sum.
fn is_of_sum(code: &Code) -> bool {
    let third = code.instructions.get(2);
    let adds = match third {
        Some(instruction) => matches!(
            instruction.op,
            Op::Dya {
                f: DyaFn::Scalar { f: Dya::Add }
            }
        ),
        None => false,
    };
    code.instructions.len() == 5 && adds
}

#[test]
fn a_statement_is_compiled(rt: HostRuntime) -> Result<(), Fail> {
    let code = compile(rt.alloc(), &sum(rt.alloc())?)?;
    assert!(rt; is_of_sum(&code));
    Ok(())
}

#[test]
fn a_script_is_compiled(rt: HostRuntime) -> Result<(), Fail> {
    let statement = sum(rt.alloc())?;
    let mut items = Items::new(rt.alloc());
    items.push(ScriptItem::Statement { line: 1, statement })?;
    let lines = Items::new(rt.alloc());
    let program = compile_script(rt.alloc(), Script { lines, items })?;
    assert!(rt; program.code(0).is_some_and(is_of_sum));
    Ok(())
}
