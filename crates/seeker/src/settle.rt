//! Open rows settled one after another.
ghost use Rattle.std.specs.Prelude.{◌≡◌, ◌<◌, ◌≤◌, [], length, take, None};
ghost use Rattle.std.specs.List.{AllByRecursion};
ghost use Rattle.rows.specs.Bare.{open_breaks, with_split};
ghost use Rattle.seeker.specs.Refused.{ended};
ghost use Rattle.seeker.specs.Sought.{candidates, first_passing, over, sought};
ghost use Rattle.seeker.specs.Steps.{if_kept, placed};

use crate::judge::Judge;
use crate::trial::try_row;
use model::refusal::Refusal;
use rows::bare::{OpenRow, SettledRow};
use rows::open::Open;
use splits::splitter::Splitter;

/// The row with a split, as a place holds it.
// A row of two values: there is no one value to convert.
fn with_split(row: &Open, split: u64) -> SettledRow
    ensures { result ≡ with_split row.now.row split }
{
    SettledRow {
        name: row.name(),
        spacing: row.spacing(),
        first: row.first(),
        wait: row.wait(),
        second: row.second(),
        split,
    }
}

/// Settles a row in place k with the first of its candidates that passes. Refused is a row that has none.
// Judge and splitter are two parameters: a struct of both would only be taken apart again.
// The candidates are asked for one by one: a `for` over `map_while` was tried, and what the kit makes of it here does not check.
fn settle_row<J: Judge, S: Splitter>(
    judge: &J,
    splitter: &S,
    row: &Open,
    places: &mut [SettledRow],
    k: usize,
) -> Result<(), Refusal>
    requires { k < length places.old }
    ensures kept { result ≡ if_kept row.now.row.name (first_passing (J.Judge.accepts judge.now) (take k places.old) row.now.row (candidates (S.Splitter.offers splitter.now) row.now.row)) }
    ensures places { places.new ≡ placed (first_passing (J.Judge.accepts judge.now) (take k places.old) row.now.row (candidates (S.Splitter.offers splitter.now) row.now.row)) places.old k }
{
    for n in 0.. {
        let Some(split) = splitter.candidate(row, n) else {
            break;
        };
        if try_row(judge, places, k, with_split(row, split)) {
            return Ok(());
        }
    }
    Err(Refusal::NoSplit { name: row.name() })
}

/// Settles lawful rows first to last, row number k in place k.
pub(crate) fn settle_rows<J: Judge, S: Splitter>(
    judge: &J,
    splitter: &S,
    rows: &[OpenRow],
    places: &mut [SettledRow],
) -> Result<(), Refusal>
    requires room { length rows.now ≤ length places.old }
    requires lawful { AllByRecursion (λ o. open_breaks o ≡ None) rows.now }
    ensures answer { result ≡ ended (sought (J.Judge.accepts judge.now) (S.Splitter.offers splitter.now) rows.now []).stuck }
    ensures places { places.new ≡ over (sought (J.Judge.accepts judge.now) (S.Splitter.offers splitter.now) rows.now []).settled places.old }
{
    for (k, row) in rows.iter().enumerate() {
        let open = Open::try_from(*row)?;
        settle_row(judge, splitter, &open, places, k)?;
    }
    Ok(())
}
