//! What a statement costs and how much room a script needs: ranged evaluation, plain statements with their work, and
//! footprints. Definitions and laws alone.
#![tactic(auto)]

mod examples;
mod laws;

pub use examples::{
    examples_of_costs, examples_of_peaks, examples_of_runs, examples_of_statements,
    examples_of_work,
};
pub use laws::{
    footprints_of_runs, forgetting_gives_evaluation, numbers_from_are_exact,
    safe_functions_have_values, selections_have_lengths,
};
