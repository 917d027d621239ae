//! What the answers of a statement's run exclude.

ghost use Rattle.d_machine.specs.Laws.{OneAnswer, EndsOrIsSpent};

/// A statement that ends has one answer, and is not spent.
pub fn one_answer()
    ensures one { OneAnswer }
    ensures spent { EndsOrIsSpent }
{}
