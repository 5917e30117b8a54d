//! What is done with the table: one entry moves, and its piece with it.
ghost use Rattle.std.specs.Prelude.{◌≡◌, ℕ, ◌+◌, ◌<◌, ◌≤◌, map, slice_index_or, take, IfSome, Some, slice_set};
ghost use Rattle.machine.specs.declared.entry.Phase.{Phase};
ghost use Rattle.machine.specs.Lines.{held_pick, ready_pick};
ghost use Rattle.machine.specs.Events.{event_at, moved, released};
ghost use Rattle.machine.specs.Keys.{held_key, ready_key};
ghost use Rattle.machine.specs.Leads.{Leads};
ghost use Rattle.machine.specs.Views.{Resting, blank};
ghost use Rattle.model.specs.Machine.{least};
ghost use Rattle.std.specs.Option.{option_map};

use crate::entry::{Entry, Event};
use crate::lines::Lines;
use crate::table::Table;
use queue::records::{HeldPiece, ReadyPiece};

// That a task is one of the table's and that an instant is not past the last stand on each move:
// a type of numbers would not know the table, and one of instants would need sums of its own. That the count stays is a fact of two states.
impl Table {
    /// Tasks at rest.
    pub(crate) fn resting(count: usize, entries: [Entry; 32]) -> Table
        requires few { count ≤ 32 }
        requires rest { (i : ℕ) → i < count → Resting (slice_index_or entries i blank) }
        ensures count { result.count ≡ count }
        ensures entries { result.entries ≡ entries }
    {
        Table {
            count,
            entries,
            lines: Lines::new(),
        }
    }

    // Two one-line calls: they answer two types of record.

    /// The ready piece that is due first.
    pub(crate) fn front(&self) -> Option<ReadyPiece>
        ensures least { least (map ready_key (take self.now.count self.now.entries)) ≡ option_map ready_pick result }
        ensures within { IfSome result (λ d. d.task < self.now.count) }
    {
        self.lines.ready.front()
    }

    /// The held piece that is ready first.
    pub(crate) fn first_held(&self) -> Option<HeldPiece>
        ensures least { least (map held_key (take self.now.count self.now.entries)) ≡ option_map held_pick result }
        ensures within { IfSome result (λ d. d.task < self.now.count) }
    {
        self.lines.held.front()
    }

    /// An entry moves, whose piece, if it has one, is at the front of its line.
    fn step(&mut self, task: usize, event: Event)
        requires within { task < self.old.count }
        requires ready { Leads ready_key self.old.count self.old.entries task }
        requires held { Leads held_key self.old.count self.old.entries task }
        requires early { event_at event ≤ 1000000000000000 }
        ensures count { self.new.count ≡ self.old.count }
        ensures entries { self.new.entries ≡ slice_set self.old.entries task (moved (slice_index_or self.old.entries task blank) event) }
    {
        let old = self.entries[task];
        let new = old.next(event);
        self.lines.take(old);
        self.entries[task] = new;
        self.lines.put(task as u64, new);
    }

    /// A task at rest wakes.
    pub(crate) fn start(&mut self, task: usize, at: u64)
        requires within { task < self.old.count }
        requires rests { (slice_index_or self.old.entries task blank).phase ≡ Phase.Rest }
        requires early { at ≤ 1000000000000000 }
        ensures count { self.new.count ≡ self.old.count }
        ensures entries { self.new.entries ≡ slice_set self.old.entries task (moved (slice_index_or self.old.entries task blank) (Event.Wake at)) }
    {
        self.step(task, Event::Wake { at });
    }

    /// The front runs or ends.
    pub(crate) fn advance(&mut self, front: ReadyPiece, event: Event)
        requires within { front.task < self.old.count }
        requires front { least (map ready_key (take self.old.count self.old.entries)) ≡ Some (ready_pick front) }
        requires early { event_at event ≤ 1000000000000000 }
        ensures count { self.new.count ≡ self.old.count }
        ensures entries { self.new.entries ≡ slice_set self.old.entries front.task (moved (slice_index_or self.old.entries front.task blank) event) }
    {
        self.step(front.task as usize, event);
    }

    /// The first of the held pieces becomes ready.
    pub(crate) fn promote(&mut self, first: HeldPiece)
        requires within { first.task < self.old.count }
        requires first { least (map held_key (take self.old.count self.old.entries)) ≡ Some (held_pick first) }
        ensures count { self.new.count ≡ self.old.count }
        ensures entries { self.new.entries ≡ slice_set self.old.entries first.task (moved (slice_index_or self.old.entries first.task blank) Event.Release) }
        ensures fewer { self.new.lines.held.len + 1 ≡ self.old.lines.held.len }
    {
        self.step(first.task as usize, Event::Release);
    }

    /// The held pieces whose instant has come by `at` become ready.
    pub(crate) fn release(&mut self, at: u64)
        ensures count { self.new.count ≡ self.old.count }
        ensures entries { (i : ℕ) → i < self.old.count → slice_index_or self.new.entries i blank ≡ released at (slice_index_or self.old.entries i blank) }
    {
        while let Some(first) = self.first_held() {
            if at < first.ready {
                return;
            }
            self.promote(first);
        }
    }
}
