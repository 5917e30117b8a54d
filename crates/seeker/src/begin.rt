//! What a seek refuses before it tries a row.
ghost use Rattle.std.specs.Prelude.{◌≡◌, None};
ghost use Rattle.model.specs.Round.{round_told};
ghost use Rattle.model.specs.Rules.{first_fault};
ghost use Rattle.rows.specs.Bare.{open_breaks};
ghost use Rattle.seeker.specs.Refused.{by_refusal, refused, round_of_all};

use checking::check;
use loads::load::Load;
use loads::multiple::common_multiple;
use model::refusal::Refusal;
use rows::bare::OpenRow;
use rows::kind::Kind;

/// Refuses by the first row that breaks a rule.
fn test_rows(rows: &[OpenRow]) -> Result<(), Refusal>
    ensures { result ≡ by_refusal (first_fault open_breaks rows.now) }
{
    for row in rows {
        row.test()?;
    }
    Ok(())
}

/// The round of a load and of lawful rows together, if it is at most 100,000.
fn joint_round<L: Load>(rest: &L, rows: &[OpenRow]) -> Option<u64>
    requires { first_fault open_breaks rows.now ≡ None }
    ensures { result ≡ round_told (round_of_all (L.Load.tasks rest.now) rows.now) }
{
    let mut round = rest.round()?;
    for row in rows {
        round = common_multiple(round, row.spacing)?;
    }
    Some(round)
}

/// Refuses by the first reason why the rows are not sought beside the rest, given so many places.
pub(crate) fn begin<L: Load>(rest: &L, rows: &[OpenRow], places: usize) -> Result<(), Refusal>
    ensures { result ≡ by_refusal (refused (L.Load.tasks rest.now) rows.now places) }
{
    let count = rest.count();
    if count > 32 || rows.len() as u64 > 32 - count {
        return Err(Refusal::TooManyTasks);
    }
    if places < rows.len() {
        return Err(Refusal::NoPlace);
    }
    test_rows(rows)?;
    joint_round(rest, rows).ok_or(Refusal::NoRound)?;
    check(rest)
}
