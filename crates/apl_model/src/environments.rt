//! Variables seen through a function of what names are bound to. Each function does nothing: its contract is a law.
ghost use Rattle.apl_model.specs.Mapped.{LookUpIsMapped, SetNameIsMapped, ErasedIsMapped, SetNamesAreMapped, WithFrameIsMapped, WithoutFrameIsMapped, WithoutFramesIsMapped, WithOriginIsMapped, NoVariablesAreMapped, FrameIsMapped, ResultIsMapped};

/// What is done with variables is the same before a function of what names are bound to as after it: looking up and
/// setting a name, making globals unset, the names that are set, and the origin.
pub fn variables_are_mapped<A, B>()
    ensures look_up { LookUpIsMapped A B }
    ensures set_name { SetNameIsMapped A B }
    ensures erased { ErasedIsMapped A B }
    ensures set_names { SetNamesAreMapped A B }
    ensures with_origin { WithOriginIsMapped A B }
    ensures no_variables { NoVariablesAreMapped A B }
{}

/// The same of frames: the one of a call, with its arguments and labels; one put before the others, the innermost taken
/// away, all taken away; and of the value of the result's name.
pub fn frames_are_mapped<A, B>()
    ensures with_frame { WithFrameIsMapped A B }
    ensures without_frame { WithoutFrameIsMapped A B }
    ensures without_frames { WithoutFramesIsMapped A B }
    ensures frame { FrameIsMapped A B }
    ensures result { ResultIsMapped A B }
{}
