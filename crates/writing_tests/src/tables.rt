//! A stack of five entries over five names, of which three share an owner, before and after what is done with it.

ghost use Rattle.std.specs.Prelude.{◌≡◌, IsTrue, IfOk};
ghost use Rattle.writing_tests.specs.Desks.{IsSound};

use crate::desks::Desk;
use apl_base::{Dya, Name, NoMemory, Place};
use array_store::{BeginFault, OwnerId};
use drag_along::{Leaf, Segment};
use std::alloc::Global;

/// The names of the table. A, B and C share an owner.
#[derive(Drop)]
pub struct Five {
    pub a: Name,
    pub b: Name,
    pub c: Name,
    pub p: Name,
    pub q: Name,
}

impl Five {
    /// The names.
    pub fn new(alloc: Global) -> Result<Five, NoMemory> {
        Ok(Five {
            a: Name::of(alloc, "A")?,
            b: Name::of(alloc, "B")?,
            c: Name::of(alloc, "C")?,
            p: Name::of(alloc, "P")?,
            q: Name::of(alloc, "Q")?,
        })
    }
}

/// Sets the names, and pushes `A`, `⌽A`, `A+A`, `P÷Q` and a number: whether all are there.
pub fn five_entries(alloc: Global, desk: &mut Desk, of: &Five) -> Result<bool, BeginFault>
    requires { IsSound desk.old }
    ensures { IfOk result (λ done. IsTrue done → IsSound desk.new) }
{
    desk.set(alloc, &of.a, 3)?;
    desk.share(&of.b, &of.a)?;
    desk.share(&of.c, &of.a)?;
    desk.set(alloc, &of.p, 3)?;
    desk.set(alloc, &of.q, 3)?;
    desk.push_name(alloc, &of.a)?;
    desk.push_name(alloc, &of.a)?;
    if !desk.reverse()? {
        return Ok(false);
    }
    if !joined(alloc, desk, &of.a, Dya::Add, &of.a)? {
        return Ok(false);
    }
    if !joined(alloc, desk, &of.p, Dya::Div, &of.q)? {
        return Ok(false);
    }
    desk.push_number(alloc, 7)?;
    Ok(true)
}

// Pushes a function of two names: whether it is there.
fn joined(
    alloc: Global,
    desk: &mut Desk,
    left: &Name,
    f: Dya,
    right: &Name,
) -> Result<bool, NoMemory>
    requires { IsSound desk.old }
    ensures { IfOk result (λ done. IsTrue done → IsSound desk.new) }
{
    desk.push_name(alloc, right)?;
    desk.push_name(alloc, left)?;
    desk.join(f, Place { line: 1, column: 2 })
}

/// A letter for each entry, the oldest first, and for each of A, B and C. `r` reads an owner and `j` does so by functions;
/// `p` is pending over others, `o` reads another owner, `n` reads none; `u` is unset.
pub fn picture(alloc: Global, desk: &Desk, of: &Five, owner: OwnerId) -> Result<String, NoMemory> {
    let mut text = String::new(alloc);
    for at in 0..desk.stack.len() {
        text.push(letter(desk.stack.entry(at), owner))?;
    }
    text.push(' ')?;
    for name in [&of.a, &of.b, &of.c] {
        let bound = desk.variables.names.get(name);
        text.push(bound.map_or('u', |leaf| letter_of_leaf(leaf, owner)))?;
    }
    Ok(text)
}

// The letter of an entry.
fn letter(entry: &Segment, owner: OwnerId) -> char {
    match entry.only_leaf() {
        Some(leaf) => letter_of_leaf(leaf, owner),
        None if entry.names(owner) => 'j',
        None => 'p',
    }
}

// The letter of a leaf.
fn letter_of_leaf(leaf: &Leaf, owner: OwnerId) -> char {
    match leaf {
        Leaf::Gen { .. } => 'n',
        Leaf::Stored { .. } if leaf.names(owner) => 'r',
        Leaf::Stored { .. } => 'o',
    }
}

/// The owner that a name's leaf reads.
pub fn owner_of(desk: &Desk, name: &Name) -> Option<OwnerId> {
    match desk.variables.names.get(name) {
        Some(Leaf::Stored { owner, .. }) => Some(*owner),
        _ => None,
    }
}
