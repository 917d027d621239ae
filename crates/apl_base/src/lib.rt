//! Cells, shapes, names and the other plain types of the machine, with the definitions of an array, of the
//! scalar functions and of the selections.
#![tactic(auto)]

mod cells;
mod examples;
mod faults;
mod laws;
mod names;
mod rows;
mod selection_examples;
mod shapes;

pub use cells::{Cell, Elem, Interval, Kind, M};
pub use examples::{
    arithmetic_examples, character_examples, identity_examples, interval_examples,
    monadic_examples, truth_examples,
};
pub use faults::{Cause, ErrorKind, MOST_BYTES, NoMemory, Place, Refusal, TooLarge};
pub use laws::{
    defined_laws, index_examples, index_laws, row_major_laws, shape_examples, tabulation_laws,
};
pub use names::Name;
pub use rows::{Dya, Mon};
pub use selection_examples::{
    at_examples, drop_examples, extend_examples, outer_examples, reverse_examples, run_examples,
    subscript_examples, take_examples, transpose_examples,
};
pub use shapes::Shape;

#[cfg(test)]
mod tests;
