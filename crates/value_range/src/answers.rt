//! What a row answers.

ghost use Rattle.std.specs.Prelude.{◌≡◌, ◌&&◌};
ghost use Rattle.apl_base.specs.Number.{is_number};
ghost use Rattle.value_range.specs.Interval.{nothing, not_safe, always, safe_where};

use crate::numbers::is_number;
use crate::sides::Ranged;
use apl_base::{Cell, Interval, M};

/// There is no argument, and so no value.
pub fn nothing() -> Ranged
    ensures { result ≡ nothing }
{
    Ranged {
        range: Interval::Empty,
        safe: true,
    }
}

/// Any number, and not safe.
pub fn not_safe() -> Ranged
    ensures { result ≡ not_safe }
{
    Ranged {
        range: Interval::Span { lo: -M, hi: M },
        safe: false,
    }
}

/// Safe, with values from `lo` to `hi`.
pub fn always(lo: Cell, hi: Cell) -> Ranged
    ensures { result ≡ always lo hi }
{
    Ranged {
        range: Interval::Span { lo, hi },
        safe: true,
    }
}

/// The same where a test holds.
pub fn safe_where(test: bool, lo: Cell, hi: Cell) -> Ranged
    ensures { result ≡ safe_where test lo hi }
{
    if test { always(lo, hi) } else { not_safe() }
}

/// The same where both ends are numbers.
pub fn safe_within(lo: Cell, hi: Cell) -> Ranged
    ensures { result ≡ safe_where (is_number lo && is_number hi) lo hi }
{
    if is_number(lo) && is_number(hi) {
        always(lo, hi)
    } else {
        not_safe()
    }
}
