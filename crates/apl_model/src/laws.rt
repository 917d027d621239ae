//! What holds of the definitions. Each function does nothing: its contract is a law.
ghost use Rattle.apl_model.specs.Laws.{OneListOfTokens, TokensInOrder, TokensAreSlices, OneStop, OneExpression, OneStatement, OneBodyLine, OneCommand, OneHeader, OneScript, OneFirstRefusal, OneFirstReadingRefusal, OneFirstLineRefusal, AcceptedExactly, AcceptedItems};

/// A line has at most one list of tokens.
pub fn one_list_of_tokens()
    ensures { OneListOfTokens }
{}

/// The tokens of a line stand in order, and none covers a column of another.
pub fn tokens_in_order()
    ensures { TokensInOrder }
{}

/// Each token's text is its slice of the line.
pub fn tokens_are_slices()
    ensures { TokensAreSlices }
{}

/// At most one column stops a line.
pub fn one_stop()
    ensures { OneStop }
{}

/// Two expressions of the language that spell the same tokens are equal.
pub fn one_expression()
    ensures { OneExpression }
{}

/// Two statements that spell the same tokens are equal.
pub fn one_statement()
    ensures { OneStatement }
{}

/// Two lines of a body that spell the same tokens have the same label and statement.
pub fn one_body_line()
    ensures { OneBodyLine }
{}

/// Two commands that spell the same tokens are equal.
pub fn one_command()
    ensures { OneCommand }
{}

/// Two headers that spell the same tokens are equal.
pub fn one_header()
    ensures { OneHeader }
{}

/// The lines of a script have at most one tree.
pub fn one_script()
    ensures { OneScript }
{}

/// A script of bytes has at most one first refusal.
pub fn one_first_refusal()
    ensures { OneFirstRefusal }
{}

/// The bytes and characters of a script have at most one first refusal.
pub fn one_first_reading_refusal()
    ensures { OneFirstReadingRefusal }
{}

/// The definitions, names and statements of a script have at most one first refusal.
pub fn one_first_line_refusal()
    ensures { OneFirstLineRefusal }
{}

/// A script of bytes is accepted exactly where it has no refusal.
pub fn accepted_exactly()
    ensures { AcceptedExactly }
{}

/// The items of each accepted script are well formed.
pub fn accepted_items()
    ensures { AcceptedItems }
{}
