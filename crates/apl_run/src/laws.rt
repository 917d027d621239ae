//! Laws of the definitions: each is the contract of a call that does nothing.

ghost use Rattle.std.specs.Prelude.{[], ◌∷◌};
ghost use Rattle.apl_base.specs.declared.faults.Cause.TheVariants.{Character};
ghost use Rattle.apl_model.specs.Refusal.{refusal};
ghost use Rattle.apl_run.specs.declared.statuses.Status.TheVariants as status;
ghost use Rattle.apl_run.specs.Answers.{LongIsRefused, OneAnswer};
ghost use Rattle.apl_run.specs.Worked.{ComesTo};

/// A script has one answer, whatever its bytes and its turns are.
pub fn one_answer()
    ensures { OneAnswer }
{}

/// A script of too many bytes is refused, and its refusal stands at no place.
pub fn long_is_refused()
    ensures { LongIsRefused }
{}

/// Worked examples: what small scripts come to with the words of a command line.
pub fn worked_answers()
    ensures accepted { ComesTo [] "2+3\n" status.Done "5\n" }
    ensures reported { ComesTo [] "1÷0\n7\n" status.Reported
        "DOMAIN ERROR\n      1÷0\n       ^\n7\n" }
    ensures refused { ComesTo [] "2+3\n2{3\n" (status.Refused (refusal Character 2 2))
        "REFUSED 2 2 CHARACTER\n" }
    ensures spent { ComesTo ("--turns" ∷ "1" ∷ []) "2+3\n7\n" status.Spent "5\n" }
    ensures exhausted { ComesTo ("--turns=0" ∷ []) "2+3\n" status.Spent "" }
{}
