//! The machine's plain core: the instant, the miss and the table.
ghost use Rattle.std.specs.Prelude.{◌≡◌, ℕ, ◌<◌, ◌≤◌, true, slice_index_or};
ghost use Rattle.machine.specs.Keys.{timely};
ghost use Rattle.machine.specs.Views.{blank};

use crate::answer::Miss;
use crate::table::Table;

/// The core; it knows nothing of the load that its tasks were copied from.
#[derive(Drop)]
pub struct Core {
    pub(crate) now: u64,
    pub(crate) miss: Option<Miss>,
    pub(crate) table: Table,
    ghost early: { now ≤ 1000000000000000 },
    ghost timed: { (i : ℕ) → i < table.count → timely now (slice_index_or table.entries i blank) ≡ true },
}
