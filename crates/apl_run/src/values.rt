//! The values of variables.

ghost use Rattle.std.specs.Prelude.{◌≡◌, ◌<◌, length, slice_get, IfOk, Some};
ghost use Rattle.array_store.specs.Counting.{OnlyCounted};
ghost use Rattle.apl_model.specs.Environment.{bound_in};
ghost use Rattle.apl_run.specs.Workspaces.{variables_in, IsLawfulWorkspace};

use crate::statuses::Workspace;
use apl_base::{Cell, Kind, Name, NoMemory, Shape};
use made_leaf::read_cells;
use std::marker::Model;

/// The value of a variable: its kind, its shape and its cells in row-major order. Contracts see it as an array.
#[derive(Drop)]
pub struct Value {
    pub kind: Kind,
    pub shape: Shape,
    cells: Vec<Cell>,
}

impl Model for Value {
    ghost use Rattle.apl_base.specs.Array.{Array};

    ghost Value = { Array };

    ghost view = { λ v. record { kind = v.kind; shape = v.shape; cells = v.cells.items } };
}

impl Value {
    /// The cell at a place of the row-major order.
    pub fn cell(&self, place: u64) -> Cell
        requires { place < length self.now.cells }
        ensures { Some result ≡ slice_get self.now.cells place }
    {
        self.cells[place as usize]
    }
}

impl Workspace {
    /// The value of a variable, or `None` exactly where its name is unset. Only fetched cells are counted; all else is as
    /// it was.
    pub fn value(&mut self, name: &Name) -> Result<Option<Value>, NoMemory>
        requires { IsLawfulWorkspace self.old }
        ensures value { IfOk result
            (λ value. value ≡ bound_in (variables_in self.old).globals name.now) }
        ensures lawful { IsLawfulWorkspace self.new }
        ensures same { variables_in self.new ≡ variables_in self.old }
        ensures names { self.new.names ≡ self.old.names }
        ensures counted { OnlyCounted self.old.store self.new.store }
        ensures made { self.new.store.counts.made ≡ self.old.store.counts.made }
        ensures applied { self.new.store.counts.applied ≡ self.old.store.counts.applied }
    {
        match self.names.get(name) {
            None => Ok(None),
            Some(leaf) => match read_cells(leaf, &mut self.store) {
                Ok(cells) => Ok(Some(Value {
                    kind: leaf.kind(),
                    shape: leaf.desc().shape.copy(),
                    cells,
                })),
                Err(fault) => Err(fault),
            },
        }
    }
}
