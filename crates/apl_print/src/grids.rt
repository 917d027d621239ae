//! Where the elements of an array stand in its text.

ghost use Rattle.std.specs.Prelude.{◌≡◌};
ghost use Rattle.apl_print.specs.Layout.{grid_of};

use apl_base::Kind;

/// What an array's elements are, the rows of each of its planes, and the elements of each row. A scalar or a vector
/// is one row.
#[derive(Clone, Copy)]
pub(crate) struct Grid {
    pub(crate) kind: Kind,
    pub(crate) rows: u64,
    pub(crate) columns: u64,
}

/// Where an element stands: how many rows of its plane stand above it, all of them where a further plane begins, and
/// how many elements of its row before it.
#[derive(Clone, Copy)]
pub(crate) struct Spot {
    pub(crate) row: u64,
    pub(crate) column: u64,
}

impl Grid {
    /// The layout of an array of this kind and of these lengths.
    pub(crate) fn of(kind: Kind, lengths: &[u64]) -> Grid
        ensures { result ≡ grid_of kind lengths.now }
    {
        let rank = lengths.len();
        if rank == 0 {
            return Grid {
                kind,
                rows: 1,
                columns: 1,
            };
        }
        let rows = if rank < 2 { 1 } else { lengths[rank - 2] };
        Grid {
            kind,
            rows,
            columns: lengths[rank - 1],
        }
    }
}
