//! Laws of stacks of pending expressions.

ghost use Rattle.value_stack.specs.Laws.{NamedOnBoth, UnreadIsUnnamed, EntryIsLawful, StackKept, Replaced, PushedStack, UnreadWritten};

/// What is so of the entries of a stack together.
pub fn stack_laws()
    ensures both { NamedOnBoth }
    ensures unread { UnreadIsUnnamed }
    ensures entry { EntryIsLawful }
    ensures kept { StackKept }
    ensures replaced { Replaced }
    ensures pushed { PushedStack }
    ensures written { UnreadWritten }
{}
