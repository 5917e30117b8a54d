//! Open rows: two costs with a wait between them.
ghost use Rattle.std.specs.Prelude.{◌≡◌, Some, None, MatchResult};
ghost use Rattle.model.specs.Rows.{LawfulOpen};
ghost use Rattle.model.specs.Rules.{split_fault};
ghost use Rattle.rows.specs.Bare.{open_breaks, with_split, settled_bounds};

use crate::bare::{BoundedRow, OpenRow};
use crate::bounded::Bounded;
use crate::rules::{test_parts, test_spacing, test_split};
use crate::settled::Settled;
use model::refusal::Refusal;

/// Two costs with a wait between them. It is no task until it is settled.
#[derive(Clone, Copy)]
pub struct Open {
    row: OpenRow,
    ghost ok: { LawfulOpen row.spacing row.first row.wait row.second },
}

impl TryFrom<OpenRow> for Open {
    type Error = Refusal;

    ghost try_from_gives = { λ row made. MatchResult made (λ p. (open_breaks row ≡ None) × (p.row ≡ row)) (λ e. open_breaks row ≡ Some e) };

    /// The row, unless a rule is broken.
    fn try_from(row: OpenRow) -> Result<Open, Refusal> {
        test_spacing(row.spacing)?;
        test_parts(row.first, row.wait, row.second)?;
        if row.first > row.spacing
            || row.wait > row.spacing - row.first
            || row.second > row.spacing - row.first - row.wait
        {
            return Err(Refusal::TooLong);
        }
        Ok(Open { row })
    }
}

impl Open {
    pub fn name(&self) -> u8
        ensures { result ≡ self.now.row.name }
    {
        self.row.name
    }

    pub fn spacing(&self) -> u64
        ensures { result ≡ self.now.row.spacing }
    {
        self.row.spacing
    }

    /// The cost before the wait.
    pub fn first(&self) -> u64
        ensures { result ≡ self.now.row.first }
    {
        self.row.first
    }

    pub fn wait(&self) -> u64
        ensures { result ≡ self.now.row.wait }
    {
        self.row.wait
    }

    /// The cost after the wait.
    pub fn second(&self) -> u64
        ensures { result ≡ self.now.row.second }
    {
        self.row.second
    }

    /// The row with a split: the due offset of its first piece.
    pub fn settle(&self, split: u64) -> Result<Settled, Refusal>
        ensures { MatchResult result (λ p. (split_fault self.now.row.spacing self.now.row.wait split ≡ None) × (p.bounded.row ≡ settled_bounds (with_split self.now.row split))) (λ e. split_fault self.now.row.spacing self.now.row.wait split ≡ Some e) }
    {
        let OpenRow {
            name,
            spacing,
            first,
            wait,
            second,
        } = self.row;
        test_split(spacing, wait, split)?;
        Ok(Settled {
            bounded: Bounded {
                row: BoundedRow {
                    name,
                    spacing,
                    first,
                    second,
                    total: first + second,
                    wait,
                    split,
                },
            },
        })
    }
}
