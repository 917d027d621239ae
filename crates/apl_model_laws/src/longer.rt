//! A run with more turns goes on where one with fewer is spent.
ghost use Rattle.apl_model_laws.specs.Longer.{FunctionsGoOn, RunsGoOn};

/// The call of a function with more turns does the same, where the turns were enough; where they were spent, what it
/// prints begins with what was printed.
pub fn functions_go_on()
    ensures { FunctionsGoOn }
{}

/// The same of a run: its end, variables and ended statements are the same with more turns, where the turns were
/// enough; where they were spent, what it prints begins with what was printed.
pub fn runs_go_on()
    ensures { RunsGoOn }
{}
