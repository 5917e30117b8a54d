//! Settled rows: open rows with a split.
ghost use Rattle.std.specs.Prelude.{◌≡◌, ◌+◌, Some, None, MatchResult};
ghost use Rattle.model.proofs.Demand.Rows.{paired_lawful};
ghost use Rattle.rows.specs.Bare.{bounded_own, settled_breaks, settled_bounds};

use crate::bare::{OpenRow, SettledRow};
use crate::bounded::Bounded;
use crate::kind::Row;
use crate::open::Open;
use model::refusal::Refusal;

/// An open row with a split: two pieces, each of which may cost its cap.
#[derive(Clone, Copy)]
pub struct Settled {
    pub(crate) bounded: Bounded,
    ghost full: { bounded.row.total ≡ bounded.row.first + bounded.row.second },
}

impl TryFrom<SettledRow> for Settled {
    type Error = Refusal;

    ghost try_from_gives = { λ row made. MatchResult made (λ p. (settled_breaks row ≡ None) × (p.bounded.row ≡ settled_bounds row)) (λ e. settled_breaks row ≡ Some e) };

    /// The row, unless a rule of the open row is broken, or the split's.
    fn try_from(row: SettledRow) -> Result<Settled, Refusal> {
        let open = Open::try_from(OpenRow {
            name: row.name,
            spacing: row.spacing,
            first: row.first,
            wait: row.wait,
            second: row.second,
        })?;
        open.settle(row.split)
    }
}

impl Settled {
    /// The least settled row, under a name.
    // Not `Default`: it takes a name. Cold and out of line: a row of a table keeps the rules, so the check never comes here.
    #[cold]
    #[inline(never)]
    pub fn least(name: u8) -> Settled
        ensures { (result.bounded.row.name ≡ name) × (result.bounded.row.spacing ≡ 3) × (result.bounded.row.wait ≡ 1) × (result.bounded.row.split ≡ 1) × (result.bounded.row.first ≡ 1) × (result.bounded.row.second ≡ 1) × (result.bounded.row.total ≡ 2) }
    {
        Settled {
            bounded: Bounded::least(name),
        }
    }
}

// Each question goes to the bounded row.
// One type with a constant for both was tried: the check cannot state a bool parameter beside a ghost field.
impl Row for Settled {
    ghost task = { λ p. bounded_own p.bounded.row };

    ghost lawful = { λ p. paired_lawful p.bounded.row.spacing p.bounded.row.wait p.bounded.row.split p.bounded.row.first p.bounded.row.second p.bounded.row.total p.bounded.ok };

    ghost title = { λ p. p.bounded.row.name };

    fn name(&self) -> u8 {
        self.bounded.name()
    }

    fn spacing(&self) -> u64 {
        self.bounded.spacing()
    }

    fn total(&self) -> u64 {
        self.bounded.total()
    }

    fn piece(&self, number: u64) -> Option<(u64, u64, u64)> {
        self.bounded.piece(number)
    }

    fn demand(&self, length: u64) -> Option<u64> {
        self.bounded.demand(length)
    }
}
