//! Plain rows: one piece.
ghost use Rattle.std.specs.Prelude.{◌≡◌, Some, None, MatchResult};
ghost use Rattle.model.specs.Rows.{plain, LawfulPlain, plain_asks};
ghost use Rattle.model.proofs.Demand.Rows.{plain_lawful};
ghost use Rattle.rows.specs.Bare.{plain_breaks};

use crate::bare::PlainRow;
use crate::kind::Row;
use crate::rules::test_spacing;
use model::length::Length;
use model::refusal::Refusal;

/// A plain row that keeps the rules.
#[derive(Clone, Copy)]
pub struct Plain {
    row: PlainRow,
    ghost ok: { LawfulPlain row.spacing row.due row.cost },
}

impl TryFrom<PlainRow> for Plain {
    type Error = Refusal;

    ghost try_from_gives = { λ row made. MatchResult made (λ p. (plain_breaks row ≡ None) × (p.row ≡ row)) (λ e. plain_breaks row ≡ Some e) };

    /// The row, unless a rule is broken.
    fn try_from(row: PlainRow) -> Result<Plain, Refusal> {
        test_spacing(row.spacing)?;
        // Tested by their two ends, as the rules are written.
        if row.due < 1 || row.due > row.spacing {
            return Err(Refusal::Due);
        }
        if row.cost < 1 || row.cost > row.due {
            return Err(Refusal::Cost);
        }
        Ok(Plain { row })
    }
}

impl Plain {
    /// The least plain row, under a name.
    // Not `Default`: it takes a name. Cold and out of line: a row of a table keeps the rules, so the check never comes here.
    #[cold]
    #[inline(never)]
    pub fn least(name: u8) -> Plain
        ensures { (result.row.name ≡ name) × (result.row.spacing ≡ 1) × (result.row.due ≡ 1) × (result.row.cost ≡ 1) }
    {
        Plain {
            row: PlainRow {
                name,
                spacing: 1,
                due: 1,
                cost: 1,
            },
        }
    }

    /// The cost of the jobs that a window of a length has room for.
    fn asked(&self, length: Length) -> u64
        ensures { result ≡ plain_asks self.now.row.spacing self.now.row.due self.now.row.cost length.value }
    {
        match length.checked_sub(self.row.due) {
            // Both fit 32 bits, and such a division takes fewer steps.
            Some(rest) => {
                (u64::from(rest.value() as u32 / self.row.spacing as u32) + 1) * self.row.cost
            }
            None => 0,
        }
    }
}

impl Row for Plain {
    ghost task = { λ p. plain p.row.spacing p.row.due p.row.cost };

    ghost lawful = { λ p. plain_lawful p.row.spacing p.row.due p.row.cost p.ok };

    ghost title = { λ p. p.row.name };

    fn name(&self) -> u8 {
        self.row.name
    }

    fn spacing(&self) -> u64 {
        self.row.spacing
    }

    fn total(&self) -> u64 {
        self.row.cost
    }

    fn piece(&self, number: u64) -> Option<(u64, u64, u64)> {
        match number {
            1 => Some((0, self.row.cost, self.row.due)),
            _ => None,
        }
    }

    fn demand(&self, length: u64) -> Option<u64> {
        Some(self.asked(Length::new(length)?))
    }
}
