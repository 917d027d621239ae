//! Tracks of an axis whose first or last elements are taken, with blanks where there are none.
ghost use Rattle.std.specs.Prelude.{◌≡◌, ◌^◌, ◌≤◌, unsigned_abs};
ghost use Rattle.made_picks.specs.Taken.{taken_on};
ghost use Rattle.made_picks.specs.Tracks.{places_on, FitsAxis};

use crate::tracks::Track;
use apl_base::Cell;

/// The track that takes the first elements of an axis of length n, or the last ones where the count is negative.
pub(crate) fn window(n: u64, count: Cell) -> Track
    requires length { n ≤ 2 ^ 40 }
    requires count { unsigned_abs count ≤ 2 ^ 40 }
    ensures places { places_on result ≡ taken_on n count }
    ensures fits { FitsAxis n result }
{
    let asked = count.unsigned_abs() as u64;
    let kept = asked.min(n);
    if count < 0 {
        Track::Line {
            before: asked - kept,
            from: Cell::from(n - kept),
            step: 1,
            count: kept,
            after: 0,
        }
    } else {
        Track::Line {
            before: 0,
            from: 0,
            step: 1,
            count: kept,
            after: asked - kept,
        }
    }
}
