//! Printed text: arrays, reports, refusals and the lines of the trace.
#![tactic(auto)]

mod arrays;
mod blocks;
mod cells;
mod costs;
mod elements;
mod faults;
mod grids;
mod laws;
mod lines;
mod reports;
mod sends;
#[cfg(test)]
mod tests;
mod widths;

pub use arrays::write_leaf;
pub use costs::Cost;
pub use faults::PrintFault;
pub use laws::{worked_arrays, worked_lines, worked_reports};
pub use lines::{write_cost, write_desc, write_refusal};
pub use reports::write_report;
