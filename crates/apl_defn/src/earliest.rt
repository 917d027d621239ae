//! Which of two refusals is the earlier one.
ghost use Rattle.std.specs.Prelude.{◌≡◌};
ghost use Rattle.apl_model.specs.Refusal.{order, phase, rank};
ghost use Rattle.apl_defn.specs.Earliest.{earlier, is_not_after};

use apl_base::{Cause, Refusal};

/// The earlier of two refusals, where there are any.
pub(crate) fn earlier(one: Option<Refusal>, other: Option<Refusal>) -> Option<Refusal>
    ensures { result ≡ earlier one other }
{
    match (one, other) {
        (None, other) => other,
        (one, None) => one,
        (Some(first), Some(second)) if stands_first(&first, &second) => one,
        _ => other,
    }
}

/// Whether a refusal is not after another.
fn stands_first(one: &Refusal, other: &Refusal) -> bool
    ensures { result ≡ is_not_after (order one.now) (order other.now) }
{
    order_of(one) <= order_of(other)
}

/// What refusals are put in order by: the phase, the line, the column, and the order of the causes.
fn order_of(refusal: &Refusal) -> [u32; 4]
    ensures { result ≡ order refusal.now }
{
    let Refusal {
        line,
        column,
        cause,
    } = *refusal;
    [phase_of(cause), line, column, rank_of(cause)]
}

/// The phase in which a cause is answered: its refusals come before those of later phases, wherever they stand.
fn phase_of(cause: Cause) -> u32
    ensures { result ≡ phase cause }
{
    match cause {
        Cause::TooLong => 0,
        Cause::Utf8 | Cause::LineLong | Cause::Character | Cause::Number | Cause::OpenText => 1,
        Cause::Header | Cause::DoubleName | Cause::OpenDefinition => 2,
        Cause::NameClass | Cause::Deep | Cause::Grammar => 3,
    }
}

/// The place of a cause in the order of those that stand at one place.
fn rank_of(cause: Cause) -> u32
    ensures { result ≡ rank cause }
{
    match cause {
        Cause::TooLong => 0,
        Cause::Utf8 => 1,
        Cause::LineLong => 2,
        Cause::Character => 3,
        Cause::Number => 4,
        Cause::OpenText => 5,
        Cause::Header => 6,
        Cause::DoubleName => 7,
        Cause::OpenDefinition => 8,
        Cause::NameClass => 9,
        Cause::Deep => 10,
        Cause::Grammar => 11,
    }
}
