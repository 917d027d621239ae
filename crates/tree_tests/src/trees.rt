//! The trees of lines, or the places where they stop.
use crate::lines::LINES;
use apl_base::{Cell, Name, Place};
use apl_model::{Classes, Expr, Heading, ReadFault, Statement};
use apl_read::tokens;
use apl_tree::{Lookup, statement, statement_among};
use sqlite_items::{Boxed, Items};
use std::alloc::Global;
use std::fmt::Write;
use std::test::Fail;

/// The cells of a literal, joined.
fn show_cells(cells: &[Cell], out: &mut String) -> Result<(), Fail> {
    let mut joint = "";
    for cell in cells {
        write!(out, "{joint}{cell}")?;
        joint = "_";
    }
    Ok(())
}

/// What a node is: its cells, its name or its function.
fn show_node(expr: &Expr, out: &mut String) -> Result<(), Fail> {
    match expr {
        Expr::Lit { literal, .. } => show_cells(literal.cells.as_slice(), out),
        Expr::Name { name, .. } => Ok(out.push_str(name.as_str())?),
        Expr::Call { f, .. } => Ok(write!(out, "{}()", f.as_str())?),
        Expr::Paren { .. } => Ok(out.push_str("(")?),
        Expr::One { f, .. } => Ok(write!(out, "{f:?}")?),
        Expr::Two { f, .. } => Ok(write!(out, "{f:?}")?),
        Expr::Reduce { f, axis, .. } => Ok(write!(out, "{f:?}/{axis:?}")?),
        Expr::Outer { f, .. } => Ok(write!(out, "∘.{f:?}")?),
        Expr::Inner { f, g, .. } => Ok(write!(out, "{f:?}.{g:?}")?),
        Expr::Index { positions, .. } => Ok(write!(out, "[{}]", positions.len())?),
        Expr::Assign { name, .. } => Ok(write!(out, "{}←", name.as_str())?),
        Expr::IndexAssign {
            name,
            positions,
            ..
        } => Ok(write!(out, "{}[{}]←", name.as_str(), positions.len())?),
        Expr::Output { .. } => Ok(out.push_str("⎕←")?),
    }
}

/// Where a node stands.
fn place_of(expr: &Expr) -> Place {
    match expr {
        Expr::Lit { place, .. }
        | Expr::Name { place, .. }
        | Expr::Call { place, .. }
        | Expr::Paren { place, .. }
        | Expr::One { place, .. }
        | Expr::Two { place, .. }
        | Expr::Reduce { place, .. }
        | Expr::Outer { place, .. }
        | Expr::Inner { place, .. }
        | Expr::Index { place, .. }
        | Expr::Assign { place, .. }
        | Expr::IndexAssign { place, .. }
        | Expr::Output { place, .. } => *place,
    }
}

/// Puts what stands below a node on top of `work`, the first one last.
fn push_parts<'a>(expr: &'a Expr, work: &mut Vec<Option<&'a Expr>>) -> Result<(), Fail> {
    match expr {
        Expr::Lit { .. } | Expr::Name { .. } => Ok(()),
        Expr::Call { left, right, .. } => {
            push_given(right, work)?;
            push_given(left, work)
        }
        Expr::Paren { inner: part, .. }
        | Expr::One { right: part, .. }
        | Expr::Reduce { right: part, .. }
        | Expr::Assign { value: part, .. }
        | Expr::Output { value: part, .. } => Ok(work.push(Some(part.get()))?),
        Expr::Two { left, right, .. }
        | Expr::Outer { left, right, .. }
        | Expr::Inner { left, right, .. } => {
            work.push(Some(right.get()))?;
            Ok(work.push(Some(left.get()))?)
        }
        Expr::Index {
            array,
            positions,
            ..
        } => {
            push_positions(positions, work)?;
            Ok(work.push(Some(array.get()))?)
        }
        Expr::IndexAssign {
            positions,
            value,
            ..
        } => {
            work.push(Some(value.get()))?;
            push_positions(positions, work)
        }
    }
}

/// Puts an argument on top of `work`, or that it is left out.
fn push_given<'a>(
    argument: &'a Option<Boxed<Expr>>,
    work: &mut Vec<Option<&'a Expr>>,
) -> Result<(), Fail> {
    match argument {
        Some(expr) => work.push(Some(expr.get()))?,
        None => work.push(None)?,
    }
    Ok(())
}

/// Puts the positions of a subscript on top of `work`, the first one last.
fn push_positions<'a>(
    positions: &'a Items<Option<Expr>>,
    work: &mut Vec<Option<&'a Expr>>,
) -> Result<(), Fail> {
    for position in positions.as_slice().iter().rev() {
        work.push(position.as_ref())?;
    }
    Ok(())
}

/// A node with its column, or `-` where it is left out; its parts are put on top of `work`.
fn show_next<'a>(
    next: Option<&'a Expr>,
    work: &mut Vec<Option<&'a Expr>>,
    out: &mut String,
) -> Result<(), Fail> {
    if !out.is_empty() {
        out.push_str(" ")?;
    }
    let Some(expr) = next else {
        out.push_str("-")?;
        return Ok(());
    };
    show_node(expr, out)?;
    write!(out, "@{}", place_of(expr).column)?;
    push_parts(expr, work)
}

/// The nodes of a tree, each before its arguments.
fn show(alloc: Global, expr: &Expr, out: &mut String) -> Result<(), Fail> {
    let mut work: Vec<Option<&Expr>> = Vec::new(alloc);
    work.push(Some(expr))?;
    for _ in 0..10_000u32 {
        match work.pop() {
            Some(next) => show_next(next, &mut work, out)?,
            None => break,
        }
    }
    Ok(())
}

/// A name that heads a function of so many arguments.
fn heading(alloc: Global, name: &str, arguments: u8) -> Result<Heading, Fail> {
    Ok(Heading {
        name: Name::of(alloc, name)?,
        arguments,
    })
}

/// `N`, `M` and `D` head functions of no, one and two arguments. A second heading of `M` doesn't count.
fn classes(alloc: Global) -> Result<Classes, Fail> {
    let mut headings = Items::new(alloc);
    headings.push(heading(alloc, "N", 0)?)?;
    headings.push(heading(alloc, "M", 1)?)?;
    headings.push(heading(alloc, "D", 2)?)?;
    headings.push(heading(alloc, "M", 2)?)?;
    Ok(Classes { headings })
}

/// The nodes of a statement.
fn show_statement(alloc: Global, statement: &Statement, out: &mut String) -> Result<(), Fail> {
    match statement {
        Statement::Nothing => Ok(()),
        Statement::Branch { value, place } => {
            write!(out, "→@{}", place.column)?;
            show(alloc, value, out)
        }
        Statement::Value { value } => show(alloc, value, out),
    }
}

/// What is said of the first line of a script, where it has one, by the classes or by the prepared ones.
fn first_statement(
    alloc: Global,
    script: &[u8],
    prepared: bool,
) -> Result<Option<Result<Statement, ReadFault>>, Fail> {
    let classes = classes(alloc)?;
    let Ok(lines) = tokens(alloc, script) else {
        return Ok(None);
    };
    match lines.lines.as_slice() {
        [] => Ok(None),
        [line, ..] if prepared => {
            let lookup = Lookup::of(alloc, classes)?;
            Ok(Some(statement_among(alloc, line, 0, &lookup)))
        }
        [line, ..] => Ok(Some(statement(alloc, line, &classes))),
    }
}

/// What the one line of a text is.
fn answer(alloc: Global, text: &[u8], prepared: bool) -> Result<String, Fail> {
    let mut out = String::new(alloc);
    match first_statement(alloc, text, prepared)?.ok_or("a line")? {
        Ok(statement) => show_statement(alloc, &statement, &mut out)?,
        Err(ReadFault::Refused { refusal }) if refusal.line == 1 => {
            write!(out, "!{}", refusal.column)?;
        }
        Err(_) => Err("memory, or another line")?,
    }
    Ok(out)
}

/// Fails with what is wanted, where something else is told.
fn tells(alloc: Global, text: &[u8], prepared: bool, wanted: &'static str) -> Result<(), Fail> {
    let told = answer(alloc, text, prepared)?;
    if told.as_str() == wanted {
        return Ok(());
    }
    Err(Fail::from(wanted))
}

/// Long lines that are statements: a text, so many copies of one, a text, and so many copies of another.
const LONG: [(&str, &str, usize, &str, &str, usize); 4] = [
    ("", "A[", 64, "1", "]", 64),
    ("", "-", 999, "1", "", 0),
    ("", "A+", 499, "A", "", 0),
    ("A[", ";", 899, "]", "", 0),
];

/// Adds so many copies of a text.
fn repeat(line: &mut String, piece: &str, times: usize) -> Result<(), Fail> {
    for _ in 0..times {
        line.push_str(piece)?;
    }
    Ok(())
}

/// Whether each long line has a tree.
fn long_lines_are_read(alloc: Global) -> Result<bool, Fail> {
    for (begin, piece, times, middle, last, more) in LONG.iter() {
        let mut line = String::from_str(alloc, begin)?;
        repeat(&mut line, piece, *times)?;
        line.push_str(middle)?;
        repeat(&mut line, last, *more)?;
        let answer = answer(alloc, line.as_bytes(), false)?;
        if answer.as_str().starts_with("!") {
            return Ok(false);
        }
    }
    Ok(true)
}

/// How many arguments the names have, where two headings have the name `M`.
const ARGUMENTS: [(&str, Option<u8>); 4] = [
    ("N", Some(0)),
    ("M", Some(1)),
    ("D", Some(2)),
    ("A", None),
];

/// Whether the first heading of each name counts.
fn first_headings_count(alloc: Global) -> Result<bool, Fail> {
    let lookup = Lookup::of(alloc, classes(alloc)?)?;
    for (name, arguments) in ARGUMENTS.iter() {
        let name = Name::of(alloc, name)?;
        if lookup.arguments(&name) != *arguments {
            return Ok(false);
        }
    }
    Ok(true)
}

// Each line of the table has this tree, or stops at this column.
#[test]
fn lines_have_their_trees(rt: HostRuntime) -> Result<(), Fail> {
    let alloc = rt.alloc();
    for (line, wanted) in LINES.iter() {
        tells(alloc, line.as_bytes(), false, wanted)?;
        tells(alloc, line.as_bytes(), true, wanted)?;
    }
    assert!(rt; long_lines_are_read(alloc)?);
    assert!(rt; first_headings_count(alloc)?);
    Ok(())
}
