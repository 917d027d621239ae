//! The laws of code: each function does nothing, and its contract is the law.

ghost use Rattle.apl_compile.specs.Laws.{CodeDoes, StatementCodeDoes, ProgramDoes, ImmediateIsRun, ReportsOfOutline, OneReport, SameLines, RoutinesAreCoded, StepsAreCoded, CodesAreInOrder};
ghost use Rattle.apl_compile.specs.Lawful.{StatementsAreLawful, LawfulCodeHasOperands};

/// The code of an expression, with any code after it, does what the expression does and goes on with its value; the
/// code of a statement does what the statement does: over all values and states.
pub fn codes_do<S, V>()
    ensures expressions { CodeDoes S V }
    ensures statements { StatementCodeDoes S V }
{}

/// A script's functions, statements and commands run by their codes as by their trees: over all values and states.
pub fn programs_do<S, V>()
    ensures { ProgramDoes S V }
{}

/// The functions, the steps and the codes of a script's program are those of the script, each statement with its code.
pub fn programs_are_coded()
    ensures functions { RoutinesAreCoded }
    ensures steps { StepsAreCoded }
    ensures codes { CodesAreInOrder }
{}

/// Immediate evaluation of a script is the run of its compiled program over arrays.
pub fn immediate_is_run()
    ensures { ImmediateIsRun }
{}

/// The reports of a script are told by the outline of its program, so scripts with one program have the same lines and
/// reports.
pub fn one_report()
    ensures lines { SameLines }
    ensures outline { ReportsOfOutline }
    ensures same { OneReport }
{}

/// The code of each statement leads from no operand to none, and code that does so never misses one.
pub fn codes_are_lawful<S, V>()
    ensures statements { StatementsAreLawful }
    ensures operands { LawfulCodeHasOperands S V }
{}
