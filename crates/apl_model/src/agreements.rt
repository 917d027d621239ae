//! Evaluation over kinds of states, values and statements that agree. Each function does nothing: its contract is a
//! law.
ghost use Rattle.apl_model.specs.Agreement.{ExpressionsAgree, PositionsAgree, StatementsAgree, FunctionsAgree, RunsAgree, TranslatedFunctionsAgree, TranslatedRunsAgree, RunsOverValuesAgree};

/// Expressions, positions and statements come to the same over values that agree: the value or the error, its place,
/// and the state that is left.
pub fn evaluations_agree<S, T, V, W>()
    ensures expressions { ExpressionsAgree S T V W }
    ensures positions { PositionsAgree S T V W }
    ensures statements { StatementsAgree S T V W }
{}

/// Calls of functions and runs come to the same over steps and statements that agree.
pub fn runs_agree<S, T, V, W, P, Q>()
    ensures functions { FunctionsAgree S T V W P Q }
    ensures runs { RunsAgree S T V W P Q }
{}

/// Where statements and their translations mean the same, so do calls of functions and runs of the translated ones.
pub fn translated_runs_agree<S, V, P, Q>()
    ensures functions { TranslatedFunctionsAgree S V P Q }
    ensures runs { TranslatedRunsAgree S V P Q }
{}

/// Where what is done with values agrees, runs of the same trees over them do.
pub fn runs_over_values_agree<S, T, V, W>()
    ensures { RunsOverValuesAgree S T V W }
{}
