//! The table of the tasks' entries, with the lines of their ready and of their held pieces.
ghost use Rattle.std.specs.Prelude.{◌≡◌, ℕ, ◌<◌, ◌≤◌, map, length, take, slice_index_or};
ghost use Rattle.machine.specs.Lines.{Holds};
ghost use Rattle.machine.specs.Readies.{helds, readies};
ghost use Rattle.machine.specs.Events.{GoodEntry};
ghost use Rattle.machine.specs.Keys.{ready_key, held_key};
ghost use Rattle.machine.specs.Views.{blank};

use crate::entry::Entry;
use crate::lines::Lines;

/// The first `count` entries are tasks, and the lines hold their pieces at work.
// An array with a count beside it: memory is fixed, and the entries are changed where they stand.
#[derive(Drop)]
pub struct Table {
    pub(crate) count: usize,
    pub(crate) entries: [Entry; 32],
    pub(crate) lines: Lines,
    ghost long: { length entries ≡ 32 },
    ghost few: { count ≤ 32 },
    ghost good: { (i : ℕ) → i < count → GoodEntry (slice_index_or entries i blank) },
    ghost lined: { Holds (readies lines) (map ready_key (take count entries)) },
    ghost parked: { Holds (helds lines) (map held_key (take count entries)) },
}
