//! Steps at any origin.

ghost use Rattle.leaf_steps.specs.Laws.{AnyOrigin, HaltedAtAnyOrigin};

/// A step that needs no origin is one with any.
pub fn origin_laws()
    ensures steps { AnyOrigin }
    ensures halted { HaltedAtAnyOrigin }
{}
