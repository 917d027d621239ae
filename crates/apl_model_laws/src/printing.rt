//! What is printed doesn't depend on what was printed before, and only grows.
ghost use Rattle.apl_model_laws.specs.Printing.{ExpressionsPrintBehind, PositionsPrintBehind, StatementsPrintBehind, FunctionsPrintBehind, ExpressionsKeepPrinted, StatementsKeepPrinted, FunctionsKeepPrinted, RunsBeginWithTheirPrefixes, BytesBeginWithTheirPrefixes};

/// An expression does the same whatever was printed before, and prints behind it, where that holds of its calls.
pub fn expressions_print_behind()
    ensures { ExpressionsPrintBehind }
{}

/// The same of the positions of a subscript.
pub fn positions_print_behind()
    ensures { PositionsPrintBehind }
{}

/// The same of a statement.
pub fn statements_print_behind()
    ensures { StatementsPrintBehind }
{}

/// The same of the call of a function, however many more calls may be pending.
pub fn functions_print_behind()
    ensures { FunctionsPrintBehind }
{}

/// An expression takes back nothing that was printed, where its calls don't.
pub fn expressions_keep_printed()
    ensures { ExpressionsKeepPrinted }
{}

/// The same of a statement.
pub fn statements_keep_printed()
    ensures { StatementsKeepPrinted }
{}

/// The same of the call of a function, however many more calls may be pending.
pub fn functions_keep_printed()
    ensures { FunctionsKeepPrinted }
{}

/// What a run prints begins with what the run of its first items prints.
pub fn runs_begin_with_their_prefixes()
    ensures { RunsBeginWithTheirPrefixes }
{}

/// And so do its bytes.
pub fn bytes_begin_with_their_prefixes()
    ensures { BytesBeginWithTheirPrefixes }
{}
