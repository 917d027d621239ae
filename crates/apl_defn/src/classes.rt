//! The classes that the headers of a script give its functions.
ghost use Rattle.std.specs.Prelude.{◌≡◌, IfOk, map};
ghost use Rattle.apl_model.specs.Script.{heading_of};

use apl_base::NoMemory;
use apl_model::{Classes, Header, Heading};
use sqlite_items::Items;
use std::alloc::Global;

/// The class that a header gives its function's name.
fn heading_from(alloc: Global, header: &Header) -> Result<Heading, NoMemory>
    ensures { IfOk result (λ heading. heading ≡ heading_of header.now) }
{
    let left = if header.left.is_some() { 1 } else { 0 };
    let right = if header.right.is_some() { 1 } else { 0 };
    Ok(Heading {
        name: header.f.copy(alloc)?,
        arguments: left + right,
    })
}

/// The classes that headers give.
pub(crate) fn classes_from(alloc: Global, headers: &[Header]) -> Result<Classes, NoMemory>
    ensures { IfOk result (λ classes. classes.headings ≡ map heading_of headers.now) }
{
    let mut headings = Vec::new(alloc);
    for header in headers {
        headings.push(heading_from(alloc, header)?)?;
    }
    Ok(Classes {
        headings: Items::from_vec(headings),
    })
}
