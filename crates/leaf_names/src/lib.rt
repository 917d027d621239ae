//! Variables that are bound to leaves: how often they name an owner, what is lawful, and the variables that they stand
//! for. The crate has definitions and their laws; each function does nothing, and its contract is a law.
#![tactic(auto)]

ghost use Rattle.leaf_names.specs.Laws.{NamedBySet, NamedByFound, NamedByUnset, NamedByFrame, FoundIsLawful, SetIsLawful, SetFills, SetAgain, NamesKept, FillingKept};

/// How often names and an owner go together, where a name is set or found, or a frame comes or goes.
pub fn count_laws()
    ensures set { NamedBySet }
    ensures found { NamedByFound }
    ensures unset { NamedByUnset }
    ensures frame { NamedByFrame }
{}

/// What is so of each leaf stays so where a name is set, and is so of a leaf that is found.
pub fn set_laws()
    ensures found { FoundIsLawful }
    ensures lawful { SetIsLawful }
    ensures fills { SetFills }
    ensures again { SetAgain }
{}

/// What names are over another store in which their owners have the same data.
pub fn store_laws()
    ensures kept { NamesKept }
    ensures filling { FillingKept }
{}
