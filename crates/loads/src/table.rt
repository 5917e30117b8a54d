//! Tables: rows of one kind, first to last.
ghost use Rattle.std.specs.Prelude.{◌≡◌, map, Some, None, MatchOption, MatchResult, slice_index};
ghost use Rattle.model.proofs.Asked.Rows.{rows_lawful};
ghost use Rattle.model.specs.Asked.{found, name_told};
ghost use Rattle.model.specs.Rules.{table_fault};

use crate::load::Load;
use crate::multiple::common_multiple;
use crate::named::Named;
use model::refusal::Refusal;
use rows::kind::{Bare, Kind, Row};

/// At most 32 rows of one kind, each of which keeps the rules of the kind.
#[derive(Drop)]
pub struct Table<'a, R> {
    rows: &'a [R],
}

impl<'a, R: Bare> Table<'a, R> {
    /// A table of the rows, unless there are more than 32 or one of them breaks a rule.
    // `new` and not `TryFrom`: lent rows are no other form of a table.
    pub fn new(rows: &'a [R]) -> Result<Table<'a, R>, Refusal>
        ensures { MatchResult result (λ t. (t.rows ≡ rows.entry) × (table_fault R.Kind.fault rows.now ≡ None) × (map R.Bare.task t.rows.now ≡ map R.Bare.own rows.now)) (λ e. table_fault R.Kind.fault rows.now ≡ Some e) }
    {
        if rows.len() > 32 {
            return Err(Refusal::TooManyRows);
        }
        for row in rows {
            row.made()?;
        }
        Ok(Table { rows })
    }

    /// The made row of a task, if the table has it.
    // Inlined always: each question of a task asks it.
    #[inline(always)]
    pub fn row(&self, task: u64) -> Option<R::Made>
        ensures means { MatchOption result (found (map R.Bare.task self.now.rows.now) task ≡ None) (λ m. found (map R.Bare.task self.now.rows.now) task ≡ Some (R.Made.Row.task m)) }
        ensures named { MatchOption result (found (map R.Bare.task self.now.rows.now) task ≡ None) (λ m. Some (R.Made.Row.title m) ≡ name_told (found (map R.Bare.task self.now.rows.now) task) (slice_index (map R.Kind.title self.now.rows.now) task)) }
    {
        // Nothing is told of a task numbered 32 or more.
        if task >= 32 {
            return None;
        }
        Some(self.rows.get(task as usize)?.kept())
    }
}

impl<'a, R: Bare> Load for Table<'a, R> {
    ghost tasks = { λ t. map R.Bare.task t.rows.now };

    ghost lawful = { λ t. rows_lawful R.Bare.task R.Bare.lawful t.rows.now };

    fn count(&self) -> u64 {
        (self.rows.len() as u64).min(33)
    }

    fn spacing(&self, task: u64) -> Option<u64> {
        Some(self.row(task)?.spacing())
    }

    fn total(&self, task: u64) -> Option<u64> {
        Some(self.row(task)?.total())
    }

    fn piece(&self, task: u64, number: u64) -> Option<(u64, u64, u64)> {
        self.row(task)?.piece(number)
    }

    // Inlined always: the check asks it for each length.
    #[inline(always)]
    fn demand(&self, task: u64, length: u64) -> Option<u64> {
        self.row(task)?.demand(length)
    }

    fn round(&self) -> Option<u64> {
        let mut round = 1;
        for row in self.rows {
            round = common_multiple(round, row.kept().spacing())?;
        }
        Some(round)
    }
}

impl<'a, R: Bare> Named for Table<'a, R> {
    ghost names = { λ t task. slice_index (map R.Kind.title t.rows.now) task };

    fn name(&self, task: u64) -> Option<u8> {
        Some(self.row(task)?.name())
    }
}
