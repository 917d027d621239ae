//! Laws of what a machine holds.

ghost use Rattle.alias_force.specs.Laws.{DeskFollows, SafeMeans, SafeIsSettled, UnreadIsClear};

/// How a desk stays lawful where entries go and come, and what entries mean of which none may fail.
pub fn desk_laws()
    ensures follows { DeskFollows }
    ensures safe { SafeMeans }
{}

/// Where there is nothing to do.
pub fn idle_laws()
    ensures safe { SafeIsSettled }
    ensures unread { UnreadIsClear }
{}
