//! Evaluation takes no more turns than it is given.
ghost use Rattle.apl_model_laws.specs.Turns.{ExpressionsKeepTurns, PositionsKeepTurns, StatementsKeepTurns, FunctionsKeepTurns, RunsKeepTurns, ImmediateEndsAtMost, ExpressionsSpendAll, PositionsSpendAll, StatementsSpendAll, FunctionsSpendAll, RunsSpendAll};

/// The turns left and the statements begun are as many together after an expression as before, where that holds of
/// its calls.
pub fn expressions_keep_turns()
    ensures { ExpressionsKeepTurns }
{}

/// The same of the positions of a subscript.
pub fn positions_keep_turns()
    ensures { PositionsKeepTurns }
{}

/// The same of a statement.
pub fn statements_keep_turns()
    ensures { StatementsKeepTurns }
{}

/// The same of the call of a function, however many more calls may be pending.
pub fn functions_keep_turns()
    ensures { FunctionsKeepTurns }
{}

/// A run of n turns begins at most n statements, and no more end.
pub fn runs_keep_turns()
    ensures { RunsKeepTurns }
{}

/// Immediate evaluation with n turns ends at most n statements.
pub fn immediate_ends_at_most()
    ensures { ImmediateEndsAtMost }
{}

/// An expression is spent only with no turns left, where that holds of its calls.
pub fn expressions_spend_all()
    ensures { ExpressionsSpendAll }
{}

/// The same of the positions of a subscript.
pub fn positions_spend_all()
    ensures { PositionsSpendAll }
{}

/// The same of a statement.
pub fn statements_spend_all()
    ensures { StatementsSpendAll }
{}

/// The same of the call of a function, however many more calls may be pending.
pub fn functions_spend_all()
    ensures { FunctionsSpendAll }
{}

/// A run that ends out of turns has no turns left, and began as many statements as it had turns.
pub fn runs_spend_all()
    ensures { RunsSpendAll }
{}
