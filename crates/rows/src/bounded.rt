//! Bounded rows: two caps with a wait between them, and a total that may be below their sum.
ghost use Rattle.std.specs.Prelude.{◌≡◌, Some, None, MatchResult};
ghost use Rattle.model.proofs.Demand.Rows.{paired_lawful};
ghost use Rattle.model.specs.Rows.{paired, LawfulPaired, paired_asks, first as first_asks};
ghost use Rattle.rows.specs.Bare.{bounded_breaks};

use crate::bare::BoundedRow;
use crate::kind::Row;
use crate::rules::{test_parts, test_spacing, test_split};
use model::length::Length;
use model::refusal::Refusal;

/// Two pieces with caps, and a total that may be below the sum of both.
#[derive(Clone, Copy)]
pub struct Bounded {
    pub(crate) row: BoundedRow,
    ghost ok: { LawfulPaired row.spacing row.wait row.split row.first row.second row.total },
}

impl TryFrom<BoundedRow> for Bounded {
    type Error = Refusal;

    ghost try_from_gives = { λ row made. MatchResult made (λ p. (bounded_breaks row ≡ None) × (p.row ≡ row)) (λ e. bounded_breaks row ≡ Some e) };

    /// The row, unless a rule is broken.
    fn try_from(row: BoundedRow) -> Result<Bounded, Refusal> {
        test_spacing(row.spacing)?;
        test_parts(row.first, row.wait, row.second)?;
        if row.total <= row.first || row.total < row.second || row.total - row.first > row.second {
            return Err(Refusal::Total);
        }
        if row.total > row.spacing || row.wait > row.spacing - row.total {
            return Err(Refusal::TooLong);
        }
        test_split(row.spacing, row.wait, row.split)?;
        Ok(Bounded { row })
    }
}

impl Bounded {
    /// The least bounded row, under a name.
    // Not `Default`: it takes a name. Cold and out of line: a row of a table keeps the rules, so the check never comes here.
    #[cold]
    #[inline(never)]
    pub fn least(name: u8) -> Bounded
        ensures { (result.row.name ≡ name) × (result.row.spacing ≡ 3) × (result.row.wait ≡ 1) × (result.row.split ≡ 1) × (result.row.first ≡ 1) × (result.row.second ≡ 1) × (result.row.total ≡ 2) }
    {
        Bounded {
            row: BoundedRow {
                name,
                spacing: 3,
                first: 1,
                second: 1,
                total: 2,
                wait: 1,
                split: 1,
            },
        }
    }

    /// What windows that begin at a wake can ask.
    fn from_wake(&self, length: Length) -> u64
        ensures { result ≡ first_asks self.now.row.spacing self.now.row.split self.now.row.first self.now.row.total length.value }
    {
        // Both fit 32 bits, and such a division takes fewer steps.
        let length = length.value() as u32;
        let spacing = self.row.spacing as u32;
        let part = if u64::from(length % spacing) >= self.row.split {
            self.row.first
        } else {
            0
        };
        u64::from(length / spacing) * self.row.total + part
    }

    /// What windows of a length can ask, those too that begin where a second piece is ready.
    fn asked(&self, length: Length) -> u64
        ensures { result ≡ paired_asks self.now.row.spacing self.now.row.wait self.now.row.split self.now.row.first self.now.row.second self.now.row.total length.value }
    {
        let first = self.from_wake(length);
        match length.checked_sub(self.row.spacing - self.row.wait - self.row.split) {
            Some(rest) => first.max(self.row.second + self.from_wake(rest)),
            None => first,
        }
    }
}

impl Row for Bounded {
    ghost task = { λ p. paired p.row.spacing p.row.wait p.row.split p.row.first p.row.second p.row.total };

    ghost lawful = { λ p. paired_lawful p.row.spacing p.row.wait p.row.split p.row.first p.row.second p.row.total p.ok };

    ghost title = { λ p. p.row.name };

    fn name(&self) -> u8 {
        self.row.name
    }

    fn spacing(&self) -> u64 {
        self.row.spacing
    }

    fn total(&self) -> u64 {
        self.row.total
    }

    fn piece(&self, number: u64) -> Option<(u64, u64, u64)> {
        let BoundedRow {
            spacing,
            first,
            second,
            wait,
            split,
            ..
        } = self.row;
        match number {
            1 => Some((0, first, split)),
            2 => Some((split + wait, second, spacing)),
            _ => None,
        }
    }

    fn demand(&self, length: u64) -> Option<u64> {
        Some(self.asked(Length::new(length)?))
    }
}
