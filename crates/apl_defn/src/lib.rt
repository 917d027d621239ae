//! Reads the lines of a script as definitions, commands and statements: its items, or its first refusal.
#![tactic(auto)]

mod classes;
mod commands;
mod copies;
mod earliest;
mod forms;
mod headers;
mod line_faults;
mod name_sets;
mod names;
mod occurrences;
mod parts;
mod scripts;
mod statement_lines;
mod uses;

pub use scripts::{script, script_of_bytes};
