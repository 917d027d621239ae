//! Plain expressions have values, and plain statements end without error.

ghost use Rattle.apl_cost_laws.specs.PlainValues.{PlainExpressionsHaveValues, PlainStatementsEndWell};

/// A plain expression has a value, as it is judged to have, with no error, no output and no change of the variables; a
/// plain statement ends without error.
pub fn plain_expressions_have_values()
    ensures expressions { PlainExpressionsHaveValues }
    ensures statements { PlainStatementsEndWell }
{}
