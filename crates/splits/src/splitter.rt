//! What offers splits for open rows.
ghost use Rattle.std.specs.Prelude.{◌≡◌, ℕ, List};
ghost use Rattle.std.specs.List.{slice_get};
ghost use Rattle.model.specs.Rows.{LawfulOpen};
ghost use Rattle.model.specs.Splits.{LawfulOffers};

use rows::open::Open;

/// A splitter means, for every open row, a list of at most 10,000 splits that leave room for both pieces.
pub trait Splitter {
    /// The splits for a spacing, a first cost, a wait and a second cost, in the order in which they are offered.
    ghost offers: { Self → ℕ → ℕ → ℕ → ℕ → List ℕ };

    ghost lawful: { (s : Self) (T C1 S C2 : ℕ) → LawfulOpen T C1 S C2 → LawfulOffers T S (offers s T C1 S C2) };

    /// Candidate number k, counted from 0, if there are so many.
    fn candidate(&self, row: &Open, k: u64) -> Option<u64>
        ensures { result ≡ slice_get (offers self.now row.now.row.spacing row.now.row.first row.now.row.wait row.now.row.second) k };
}
