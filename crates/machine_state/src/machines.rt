//! The state of the machine.

ghost use Rattle.std.specs.Prelude.{◌≡◌, [], pos};
ghost use Rattle.array_store.specs.Stores.{empty_store};
ghost use Rattle.apl_model.specs.Environment.{no_variables};
ghost use Rattle.machine_state.specs.StandsFor.{IsAtRest};

use apl_base::Cell;
use apl_print::Cost;
use array_store::Store;
use name_table::Names;
use std::alloc::Global;
use value_stack::Stack;

/// The state of a run: the store of cells, the names and the pending expressions over it, how many statements may still
/// begin and how many have, whether a trace is wanted, what the statements took that have ended, and the origin.
#[derive(Drop)]
pub struct Machine {
    pub store: Store,
    pub names: Names,
    pub stack: Stack,
    pub turns_left: u64,
    pub begun: u64,
    pub traced: bool,
    pub costs: Vec<Cost>,
    pub origin: Cell,
}

impl Machine {
    /// A machine without names, with the origin 1, whose store has room for `limit` cells and which may begin so many
    /// statements. It takes no memory.
    pub fn new(alloc: Global, limit: u64, turns: u64, traced: bool) -> Machine
        ensures rest { IsAtRest result }
        ensures store { result.store ≡ empty_store limit }
        ensures names { result.names ≡ no_variables }
        ensures stack { result.stack ≡ [] }
        ensures turns { result.turns_left ≡ turns }
        ensures begun { result.begun ≡ 0 }
        ensures traced { result.traced ≡ traced }
        ensures costs { result.costs.items ≡ [] }
        ensures origin { result.origin ≡ pos 1 }
    {
        Machine {
            store: Store::new(alloc, limit),
            names: Names::new(alloc),
            stack: Stack::new(alloc),
            turns_left: turns,
            begun: 0,
            traced,
            costs: Vec::new(alloc),
            origin: 1,
        }
    }
}
