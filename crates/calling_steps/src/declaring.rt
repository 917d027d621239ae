//! The names that a call declares.

ghost use Rattle.std.specs.Prelude.{◌≡◌, ◌++◌, IfOk, OnOk};
ghost use Rattle.std.specs.Option.{option_to_list};
ghost use Rattle.name_table.specs.Laws.{declared_by, label_names};
ghost use Rattle.calling_steps.specs.Calls.{labels_in};

use apl_base::{Name, NoMemory};
use apl_model::{Header, OutlineBody};
use std::alloc::Global;

// The names that a call declares: the result, the arguments, the locals and the labels.
pub(crate) fn declared_names(
    alloc: Global,
    header: &Header,
    body: &[OutlineBody],
) -> Result<Vec<Name>, NoMemory>
    ensures { IfOk result (λ names.
        names.items ≡ declared_by header.now (labels_in body.now)) }
{
    let mut names = Vec::new(alloc);
    add_name(alloc, &header.result, &mut names)?;
    add_name(alloc, &header.left, &mut names)?;
    add_name(alloc, &header.right, &mut names)?;
    for name in header.locals.as_slice() {
        names.push(name.copy(alloc)?)?;
    }
    for line in body {
        add_name(alloc, &line.label, &mut names)?;
    }
    Ok(names)
}

// A name, where there is one, comes behind the others.
fn add_name(alloc: Global, name: &Option<Name>, names: &mut Vec<Name>) -> Result<(), NoMemory>
    ensures { OnOk result
        (names.new.items ≡ names.old.items ++ option_to_list name.now) }
{
    if let Some(name) = name {
        names.push(name.copy(alloc)?)?;
    }
    Ok(())
}
