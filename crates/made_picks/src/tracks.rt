//! What is read along one axis of an array.
ghost use Rattle.std.specs.Prelude.{◌≡◌, ℕ, ◌^◌, ◌<◌, ◌≤◌, ◌+ℤ◌, ◌-ℤ◌, ◌*ℤ◌, ◌++◌, replicate, length, map, slice_index_or, None, All};
ghost use Rattle.apl_base.specs.Array.{size_of};
ghost use Rattle.apl_base.specs.Number.{IsNumber};
ghost use Rattle.array_store.specs.Places.{PlacesWithin};
ghost use Rattle.apl_model_laws.specs.Lawful.{IsOrigin};
ghost use Rattle.made_picks.specs.Picks.{lengths_on};
ghost use Rattle.made_picks.specs.Tracks.{places_on, stepped, FitsAxis, Names};

use apl_base::Cell;

/// The numbers on an axis that are read, in order. Where there is none, the result is filled.
#[derive(Drop)]
pub enum Track {
    /// None `before` times, then `count` numbers that lie `step` apart, the first of them `from`, then none `after` times.
    Line {
        before: u64,
        from: Cell,
        step: Cell,
        count: u64,
        after: u64,
    },
    /// Each of these less the origin.
    Listed {
        values: Vec<Cell>,
        origin: Cell,
    },
}

impl Track {
    /// How many numbers the result has on the axis.
    pub fn len(&self) -> u64
        requires { length (places_on self.now) ≤ 2 ^ 40 }
        ensures { result ≡ length (places_on self.now) }
    {
        match self {
            Track::Line {
                before,
                count,
                after,
                ..
            } => before + count + after,
            Track::Listed { values, .. } => values.len() as u64,
        }
    }

    /// What is read for a number of the result.
    pub fn place(&self, j: u64) -> Option<Cell>
        requires fits { (n : ℕ) × (n ≤ 2 ^ 40) × FitsAxis n self.now }
        requires within { j < length (places_on self.now) }
        ensures { result ≡ slice_index_or (places_on self.now) j None }
    {
        match self {
            Track::Line {
                before,
                from,
                step,
                count,
                ..
            } => line_place(j, *before, *from, *step, *count),
            Track::Listed { values, origin } => {
                let value = values.as_slice()[j as usize];
                Some(less_origin(value, *origin))
            }
        }
    }
}

// What is read for a number of a line.
fn line_place(j: u64, before: u64, from: Cell, step: Cell, count: u64) -> Option<Cell>
    requires { (n : ℕ) × (n ≤ 2 ^ 40) × PlacesWithin n from step count }
    ensures { result ≡ slice_index_or (replicate before None ++ stepped from step count) j None }
{
    if j < before {
        return None;
    }
    let k = j - before;
    if k >= count {
        return None;
    }
    Some(number_on(from, step, Cell::from(k)))
}

/// The number at a place that lies so many steps behind another one.
pub fn number_on(from: Cell, step: Cell, place: Cell) -> Cell
    requires from { IsNumber from }
    requires number { IsNumber (from +ℤ (step *ℤ place)) }
    ensures { result ≡ from +ℤ (step *ℤ place) }
{
    from + step * place
}

/// The place that a number names.
pub fn less_origin(value: Cell, origin: Cell) -> Cell
    requires origin { IsOrigin origin }
    requires named { (n : ℕ) × (n ≤ 2 ^ 40) × Names origin n value }
    ensures { result ≡ value -ℤ origin }
{
    value - origin
}

/// How many elements tracks pick together.
pub fn picked_count(tracks: &[Track]) -> u64
    requires each { All (λ t. length (places_on t) ≤ 2 ^ 40) tracks.now }
    requires few { size_of (lengths_on (map places_on tracks.now)) ≤ 2 ^ 40 }
    requires some { 0 < size_of (lengths_on (map places_on tracks.now)) }
    ensures { result ≡ size_of (lengths_on (map places_on tracks.now)) }
{
    let mut count = 1;
    for track in tracks {
        count *= track.len();
    }
    count
}
