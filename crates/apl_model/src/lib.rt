//! What a script is and means: its tokens, trees, items and outline as types, and the definitions that all
//! contracts of the machine cite.
#![tactic(auto)]

mod agreements;
mod environments;
mod examples;
mod faults;
mod functions;
mod laws;
mod outlines;
mod scripts;
mod texts;
mod tokens;
mod trees;

pub use agreements::{
    evaluations_agree, runs_agree, runs_over_values_agree, translated_runs_agree,
};
pub use environments::{frames_are_mapped, variables_are_mapped};
pub use examples::{
    refusals_of_bytes_and_characters, refusals_of_definitions, refusals_of_lines,
    tokens_of_ten_lines, trees_of_fifteen_lines,
};
pub use faults::ReadFault;
pub use functions::{Axis, DyaFn, MonFn};
pub use laws::{
    accepted_exactly, accepted_items, one_body_line, one_command, one_expression,
    one_first_line_refusal, one_first_reading_refusal, one_first_refusal, one_header,
    one_list_of_tokens, one_script, one_statement, one_stop, tokens_are_slices, tokens_in_order,
};
pub use outlines::{Outline, OutlineBody, OutlineItem, OutlineLine};
pub use scripts::{BodyLine, Command, Definition, Header, Script, ScriptItem};
pub use texts::Text;
pub use tokens::{Classes, Heading, Line, Lines, Token, Word};
pub use trees::{Expr, Literal, Statement};
