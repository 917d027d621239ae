//! The statements of a script, by their codes.

ghost use Rattle.standing.specs.Behind.{EvaluatedBehind};
ghost use Rattle.standing.specs.Statements.{StatementHasCode, EvaluatedByCode};

/// A statement outside definitions has the code of its number, and its code comes to what its evaluation comes to.
pub fn statements_have_codes()
    ensures code { StatementHasCode }
    ensures same { EvaluatedByCode }
{}

/// A statement does the same whatever was printed and entered before it.
pub fn statements_stand_alone()
    ensures { EvaluatedBehind }
{}
