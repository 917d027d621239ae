//! Laws of the definitions of evaluation. Each function does nothing: its contract is a law.
#![tactic(auto)]

mod lawful;
mod longer;
mod printing;
mod turns;

pub use lawful::{
    axes_are_tested, dyadic_values_are_lawful, expressions_are_lawful, functions_are_lawful,
    inner_products_are_lawful, literals_are_lawful, monadic_values_are_lawful,
    outer_products_are_lawful, positions_are_lawful, reductions_are_lawful,
    replacements_are_lawful, runs_are_lawful, scripts_have_lawful_items, shapes_are_tested,
    statements_are_lawful, subscripts_are_lawful,
};
pub use longer::{functions_go_on, runs_go_on};
pub use printing::{
    bytes_begin_with_their_prefixes, expressions_keep_printed, expressions_print_behind,
    functions_keep_printed, functions_print_behind, positions_print_behind,
    runs_begin_with_their_prefixes, statements_keep_printed, statements_print_behind,
};
pub use turns::{
    expressions_keep_turns, expressions_spend_all, functions_keep_turns, functions_spend_all,
    immediate_ends_at_most, positions_keep_turns, positions_spend_all, runs_keep_turns,
    runs_spend_all, statements_keep_turns, statements_spend_all,
};
