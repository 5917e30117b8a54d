//! A row on trial in a place.
ghost use Rattle.std.specs.Prelude.{◌≡◌, ◌+◌, ◌<◌, [], ◌∷◌, ◌++◌, length, take, if◌then◌else◌, slice_set};
ghost use Rattle.seeker.specs.Steps.{placed};

use crate::judge::Judge;
use rows::bare::SettledRow;

/// A row on trial: its place gets back what it held, unless the row is kept.
struct Trial<'a> {
    rows: &'a mut [SettledRow],
    place: usize,
    /// What the place held, unless the row is kept.
    old: Option<SettledRow>,
    ghost within: { place < length rows.now },
}

impl Drop for Trial<'_> {
    fn drop(self)
        ensures { self.exit.0.now ≡ placed self.entry.old self.entry.rows.now self.entry.place }
    {
        let Trial { rows, place, old } = self;
        if let Some(old) = old {
            rows[place] = old;
        }
    }
}

impl Trial<'_> {
    /// The rows settled before, and the one on trial.
    fn front(&self) -> &[SettledRow]
        ensures { result.now ≡ take (self.entry.now.place + 1) self.entry.now.rows.now }
    {
        &self.rows[0..self.place + 1]
    }
}

/// Tries a row in place k, after the rows in the places before it, and keeps it there if they pass.
pub(crate) fn try_row<J: Judge>(
    judge: &J,
    places: &mut [SettledRow],
    k: usize,
    row: SettledRow,
) -> bool
    requires { k < length places.old }
    ensures verdict { result ≡ J.Judge.accepts judge.now (take k places.old ++ row ∷ []) }
    ensures places { places.new ≡ (if result then slice_set places.old k row else places.old) }
{
    let old = Some(places[k]);
    places[k] = row;
    let mut trial = Trial {
        rows: places,
        place: k,
        old,
    };
    let good = judge.passes(trial.front());
    if good {
        trial.old = None;
    }
    good
}
