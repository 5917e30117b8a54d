//! What decides whether settled rows pass.
ghost use Rattle.std.specs.Prelude.{◌≡◌, Bool, List};
ghost use Rattle.rows.specs.declared.bare.SettledRow.{SettledRow};
ghost use Rattle.seeker.specs.Judged.{judged};

use checking::check;
use loads::load::Load;
use loads::pair::Pair;
use loads::table::Table;
use rows::bare::SettledRow;

/// Whoever decides whether settled rows pass.
// A trait and no closure: that a closure always answers by the rows alone would be one clause more on each function.
pub(crate) trait Judge {
    ghost accepts: { Self → List SettledRow → Bool };

    fn passes(&self, rows: &[SettledRow]) -> bool
        ensures { result ≡ accepts self.now rows.now };
}

/// The check of a load with a table of the rows beside it. Rows that are no table do not pass.
#[derive(Drop)]
pub(crate) struct Beside<'a, L> {
    pub(crate) rest: &'a L,
}

impl<'a, L: Load> Judge for Beside<'a, L> {
    ghost accepts = { λ b rows. judged (L.Load.tasks b.rest.now) rows };

    fn passes(&self, rows: &[SettledRow]) -> bool {
        let first = self.rest;
        Table::new(rows)
            .and_then(|second| check(&Pair { first, second }))
            .is_ok()
    }
}
