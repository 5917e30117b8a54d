//! The lines of the ready and of the held pieces.
ghost use Rattle.std.specs.Prelude.{◌≡◌, ℕ, ◌+◌, ◌<◌, sum_by};
ghost use Rattle.machine.specs.Lines.{worth, Goes};
ghost use Rattle.machine.specs.Readies.{helds, readies};
ghost use Rattle.machine.specs.Events.{GoodEntry};
ghost use Rattle.machine.specs.Keys.{held_key, ready_key};
ghost use Rattle.model.specs.Machine.{Pick};

use crate::entry::{Entry, Phase};
use crate::line::Line;
use queue::records::{HeldPiece, ReadyPiece};

/// The ready pieces by their due instants, and the held pieces by their ready instants.
#[derive(Drop)]
pub struct Lines {
    pub(crate) ready: Line<ReadyPiece>,
    pub(crate) held: Line<HeldPiece>,
}

impl Lines {
    /// Two empty lines.
    pub(crate) fn new() -> Lines
        ensures ready { result.ready.len ≡ 0 }
        ensures held { result.held.len ≡ 0 }
    {
        Lines {
            ready: Line::new(),
            held: Line::new(),
        }
    }

    /// Puts an entry's piece into its line.
    pub(crate) fn put(&mut self, task: u64, entry: Entry)
        requires good { GoodEntry entry }
        requires ready_room { self.old.ready.len < 32 }
        requires held_room { self.old.held.len < 32 }
        ensures ready { (f : Pick → ℕ) → sum_by f (readies self.new) ≡ worth f task (ready_key entry) + sum_by f (readies self.old) }
        ensures held { (f : Pick → ℕ) → sum_by f (helds self.new) ≡ worth f task (held_key entry) + sum_by f (helds self.old) }
    {
        match entry.phase {
            Phase::Rest => {}
            Phase::Ready { piece, .. } => {
                let due = entry.instant(entry.task.pieces[piece].due);
                self.ready.put(ReadyPiece { due, task });
            }
            Phase::Held { piece } => {
                let ready = entry.instant(entry.task.pieces[piece].ready);
                self.held.put(HeldPiece { ready, task });
            }
        }
    }

    /// Takes the front out of the line in which an entry's piece stands.
    pub(crate) fn take(&mut self, entry: Entry)
        ensures ready { Goes (ready_key entry) (readies self.old) (readies self.new) }
        ensures held { Goes (held_key entry) (helds self.old) (helds self.new) }
    {
        match entry.phase {
            Phase::Rest => {}
            Phase::Ready { .. } => {
                // The entry says what is taken.
                let _ = self.ready.take();
            }
            Phase::Held { .. } => {
                let _ = self.held.take();
            }
        }
    }
}
