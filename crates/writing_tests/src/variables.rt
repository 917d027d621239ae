//! The names of a workspace as what holds leaves.

ghost use Rattle.std.specs.Prelude.{◌≡◌, ℕ, ◌+◌, [], IfOk};
ghost use Rattle.apl_base.specs.Number.{IsNumber};

use alias_force::{Holder, before_write};
use apl_base::{Cell, Kind, Name};
use array_desc::Desc;
use array_store::{BeginFault, OwnerId, Store};
use drag_along::Leaf;
use name_table::Names;
use std::alloc::Global;
use value_stack::Stack;

/// The names of a workspace, through which the owner of a name is made free to be written.
#[derive(Drop)]
pub struct Variables {
    pub names: Names,
}

impl Holder for Variables {
    ghost names = { λ v. v.names };

    /// The leaf that the look-up finds.
    fn leaf_of(&self, name: &Name) -> Option<&Leaf> {
        self.names.leaf_of(name)
    }

    /// Puts another leaf where the look-up finds one, and gives that one back.
    fn give(&mut self, name: &Name, leaf: Leaf) -> Leaf {
        self.names.give(name, leaf)
    }
}

/// Binds a name to a number that is not stored, and makes it free to be written: its owner, and the store.
pub fn writable_number(
    alloc: Global,
    number: Cell,
    name: &Name,
) -> Result<(OwnerId, Store), BeginFault>
    requires { IsNumber number }
{
    let mut store = Store::new(alloc, 9);
    let mut stack = Stack::new(alloc);
    let mut variables = Variables {
        names: Names::new(alloc),
    };
    let leaf = Leaf::Gen {
        desc: Desc::one(alloc, number),
        kind: Kind::Num,
    };
    variables.names.set(name, leaf, &mut store)?;
    let owner = before_write(alloc, &mut variables, &mut stack, &mut store, name)?;
    Ok((owner, store))
}
