//! Kinds of arguments.

ghost use Rattle.std.specs.Prelude.{◌≡◌, ◌==◌, ◌&&◌, not};
ghost use Rattle.apl_base.specs.Scalar.{is_same_kind};
ghost use Rattle.apl_model.specs.Whole.{is_char};

use apl_base::Kind;

/// Whether two kinds are one.
pub(crate) fn is_one_kind(a: Kind, b: Kind) -> bool
    ensures { result ≡ is_same_kind a b }
{
    matches!((a, b), (Kind::Num, Kind::Num) | (Kind::Char, Kind::Char))
}

/// Whether an array of this kind with so many elements is text: characters, and at least one.
pub(crate) fn is_text(kind: Kind, count: u64) -> bool
    ensures { result ≡ (is_char kind && not (count == 0)) }
{
    matches!(kind, Kind::Char) && count != 0
}
