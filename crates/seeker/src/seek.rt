//! The seek: open rows settled beside a load.
ghost use Rattle.std.specs.Prelude.{◌≡◌, ◌↔◌, length, take, None};
ghost use Rattle.model.specs.Verdict.{accepted, verdict};
ghost use Rattle.seeker.specs.Law.{AcceptedOrOverloaded, Began, Law};
ghost use Rattle.seeker.specs.Refused.{refused, seek_answers, seek_leaves, unready};
ghost use Rattle.seeker.specs.Sought.{beside};

use crate::begin::begin;
use crate::judge::Beside;
use crate::order::order_rows;
use crate::settle::settle_rows;
use loads::load::Load;
use model::refusal::Refusal;
use rows::bare::{OpenRow, SettledRow};
use splits::splitter::Splitter;

/// Settles open rows in the places, each with the first of its splits that passes beside the rest and the rows settled before.
///
/// Rows come by their spacing less their wait, then by their position; row number k of that order goes to place k.
/// Refused are, in this order: more than 32 tasks for rest and rows together, fewer places than rows, the first row that breaks a rule,
/// no round for rest and rows together, a rest that is overloaded, and a row of which no split passes.
/// After the last the places before that row's are settled. Every other place holds what it held, as all do after the other refusals.
pub fn seek<S: Splitter, L: Load>(
    splitter: &S,
    rest: &L,
    rows: &[OpenRow],
    places: &mut [SettledRow],
) -> Result<(), Refusal>
    ensures answer { result ≡ seek_answers (L.Load.tasks rest.now) (S.Splitter.offers splitter.now) rows.now places.old }
    ensures places { places.new ≡ seek_leaves (L.Load.tasks rest.now) (S.Splitter.offers splitter.now) rows.now places.old }
    ensures begun { (refused (L.Load.tasks rest.now) rows.now (length places.old) ≡ None) ↔ Began result }
    ensures law { refused (L.Load.tasks rest.now) rows.now (length places.old) ≡ None → Law (L.Load.tasks rest.now) (S.Splitter.offers splitter.now) rows.now places.old places.new result }
    ensures accepted { result ≡ accepted → verdict (beside (L.Load.tasks rest.now) (take (length rows.now) places.new)) ≡ accepted }
    ensures alone { unready (L.Load.tasks rest.now) rows.now (length places.old) ≡ None → AcceptedOrOverloaded (verdict (L.Load.tasks rest.now)) }
{
    begin(rest, rows, places.len())?;
    // 32 places: there are no more rows, and memory is fixed.
    let mut ordered = [OpenRow::default(); 32];
    let ordered = &mut ordered[..rows.len()];
    order_rows(rows, ordered);
    settle_rows(&Beside { rest }, splitter, ordered, places)
}

#[cfg(test)]
mod tests {
    use super::*;
    use loads::table::Table;
    use rows::bare::PlainRow;
    use splits::splitters::Falling;
    use std::test::Fail;

    fn open(name: u8, spacing: u64, first: u64, wait: u64, second: u64) -> OpenRow {
        OpenRow {
            name,
            spacing,
            first,
            wait,
            second,
        }
    }

    // The number of the refusal, if any (the table of numbers is tested too), and the name and split in each of two places, which held (9, 7) before.
    fn sought(due: u64, rows: &[OpenRow]) -> Result<(Option<u8>, (u8, u64), (u8, u64)), Refusal> {
        let plain = [PlainRow {
            name: 1,
            spacing: 5,
            due,
            cost: 1,
        }];
        let rest = Table::new(&plain)?;
        let held = SettledRow {
            name: 9,
            split: 7,
            ..SettledRow::default()
        };
        let mut places = [held; 2];
        let refused = seek(&Falling, &rest, rows, &mut places).err();
        let [first, second] = places.map(|row| (row.name, row.split));
        Ok((refused.map(|refusal| refusal.number()), first, second))
    }

    #[test]
    fn settles_or_gives_back(rt: HostRuntime) -> Result<(), Fail> {
        let page = open(2, 10, 1, 8, 1);
        let other = open(3, 10, 1, 8, 1);
        let long = open(4, 20, 2, 4, 3);
        assert_eq!(rt; sought(5, &[page])?, (None, (2, 1), (9, 7)));
        assert_eq!(rt; sought(1, &[page])?, (Some(14), (9, 7), (9, 7)));
        assert_eq!(rt; sought(5, &[page, other])?, (Some(14), (2, 1), (9, 7)));
        assert_eq!(rt; sought(5, &[long, page])?, (None, (2, 1), (4, 8)));
        assert_eq!(rt;
            sought(5, &[long, page, other])?,
            (Some(13), (9, 7), (9, 7))
        );
        Ok(())
    }
}
