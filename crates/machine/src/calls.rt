//! The calls of the machine's core.
ghost use Rattle.std.specs.Prelude.{◌≡◌, ℕ, ◌<◌, ◌≤◌, false, map, take, slice_index_or, MatchResult};
ghost use Rattle.machine.specs.Calls.{answered, miss_of, state_of, stepped, tasks_of, ticked, Refuses};
ghost use Rattle.machine.specs.Views.{Resting, blank, task_of};
ghost use Rattle.model.specs.Machine.{do_end, do_tick, do_wake, later, opened, stopped};

use crate::answer::{Miss, Ticked};
use crate::clock::Core;
use crate::entry::{Entry, Event};
use crate::table::Table;
use model::refusal::Refusal;

/// The last instant.
const LAST: u64 = 1_000_000_000_000_000;

// The core has a field `now`, so clauses name the core itself `self.entry.now`.
// Each call says that the tasks stay: a fact of two states, which no type holds.
impl Core {
    /// The core at its first instant, its tasks at rest.
    pub(crate) fn resting(start: u64, count: usize, entries: [Entry; 32]) -> Core
        requires early { start ≤ 999999999700000 }
        requires few { count ≤ 32 }
        requires rest { (i : ℕ) → i < count → Resting (slice_index_or entries i blank) }
        ensures tasks { tasks_of result ≡ map task_of (take count entries) }
        ensures state { state_of result ≡ opened (tasks_of result) start }
    {
        Core {
            now: start,
            miss: None,
            table: Table::resting(count, entries),
        }
    }

    pub(crate) fn now(&self) -> u64
        ensures { result ≡ (state_of self.entry.now).now }
    {
        self.now
    }

    pub(crate) fn miss(&self) -> Option<Miss>
        ensures { miss_of result ≡ (state_of self.entry.now).miss }
    {
        self.miss
    }

    /// The place of the task with this number, while the machine runs.
    fn task(&self, task: u64) -> Result<usize, Refusal>
        ensures { MatchResult result (λ i. (i ≡ task) × (i < self.entry.now.table.count) × (stopped (miss_of self.entry.now.miss) ≡ false)) (Refuses self.entry.now task) }
    {
        if self.miss.is_some() {
            return Err(Refusal::Stopped);
        }
        if task >= self.table.count as u64 {
            return Err(Refusal::NoTask);
        }
        Ok(task as usize)
    }

    pub(crate) fn wake(&mut self, task: u64) -> Result<(), Refusal>
        ensures did { stepped (answered result) (state_of self.new) ≡ do_wake (tasks_of self.old) (state_of self.old) task }
        ensures tasks { tasks_of self.new ≡ tasks_of self.old }
    {
        let i = self.task(task)?;
        let entry = self.table.entries[i];
        if entry.soon(self.now) {
            return Err(Refusal::TooSoon);
        }
        if entry.phase.works() {
            return Err(Refusal::JobOpen);
        }
        self.table.start(i, self.now);
        Ok(())
    }

    pub(crate) fn end(&mut self, task: u64) -> Result<(), Refusal>
        ensures did { stepped (answered result) (state_of self.new) ≡ do_end (tasks_of self.old) (state_of self.old) task }
        ensures tasks { tasks_of self.new ≡ tasks_of self.old }
    {
        self.task(task)?;
        let front = self.table.front().ok_or(Refusal::NotFront)?;
        if front.task != task {
            return Err(Refusal::NotFront);
        }
        self.table.advance(front, Event::End { at: self.now });
        Ok(())
    }

    /// The instant grows by 1.
    fn pass(&mut self)
        requires { self.old.now < 1000000000000000 }
        ensures state { state_of self.new ≡ later (state_of self.old) }
        ensures tasks { tasks_of self.new ≡ tasks_of self.old }
    {
        let at = self.now + 1;
        self.table.release(at);
        self.now = at;
    }

    // Inlined always, as the machine's own tick is.
    #[inline(always)]
    pub(crate) fn tick(&mut self) -> Result<Ticked, Refusal>
        ensures did { stepped (ticked result) (state_of self.new) ≡ do_tick (tasks_of self.old) (state_of self.old) }
        ensures tasks { tasks_of self.new ≡ tasks_of self.old }
    {
        if self.miss.is_some() {
            return Err(Refusal::Stopped);
        }
        let at = self.now;
        if at >= LAST {
            return Err(Refusal::LastInstant);
        }
        // Not ok_or: that no piece is ready is no refusal, it lets time pass.
        let Some(front) = self.table.front() else {
            self.pass();
            return Ok(Ticked::Idle);
        };
        let task = front.task;
        let entry = self.table.entries[task as usize];
        let piece = entry.phase.at_work();
        if front.due <= at {
            let miss = Miss {
                task,
                piece,
                instant: at,
            };
            self.miss = Some(miss);
            return Ok(Ticked::Missed(miss));
        }
        self.table.advance(front, Event::Tick { at });
        self.pass();
        Ok(Ticked::Ran { task, piece })
    }
}
