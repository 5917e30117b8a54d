//! The machine over a load.
ghost use Rattle.std.specs.Prelude.{◌≡◌, IfOk, Some, MatchResult};
ghost use Rattle.machine.specs.Calls.{answered, miss_of, state_of, stepped, tasks_of, ticked};
ghost use Rattle.machine.specs.Opened.{OpenedOn, open_fault};
ghost use Rattle.model.specs.Laws.{TickSays};
ghost use Rattle.model.specs.Machine.{do_end, do_tick, do_wake};

use crate::answer::{Miss, Ticked};
use crate::clock::Core;
use crate::opens::open_core;
use loads::load::Load;
use model::refusal::Refusal;

/// A machine that runs the jobs of a load's tasks. A lent load serves as well as an owned one.
// Each call says that tasks and load stay: a fact of two states, which no type holds.
#[derive(Drop)]
pub struct Machine<L> {
    load: L,
    core: Core,
}

impl<L: Load + Drop> Machine<L> {
    /// A machine whose first instant is `start`, its tasks at rest.
    pub fn open(load: L, start: u64) -> Result<Machine<L>, Refusal>
        ensures opened { MatchResult result (λ m. OpenedOn (L.Load.tasks load) start m.core) (λ e. open_fault (L.Load.tasks load) start ≡ Some e) }
        ensures holds { IfOk result (λ m. m.load ≡ load) }
    {
        let core = open_core(&load, start)?;
        Ok(Machine { load, core })
    }

    /// The load that the machine was opened on.
    pub fn load(&self) -> &L
        ensures { result.now ≡ self.now.load }
    {
        &self.load
    }

    /// The instant.
    pub fn now(&self) -> u64
        ensures { result ≡ (state_of self.now.core).now }
    {
        self.core.now()
    }

    /// The miss at which the machine stopped.
    pub fn miss(&self) -> Option<Miss>
        ensures { miss_of result ≡ (state_of self.now.core).miss }
    {
        self.core.miss()
    }

    /// Starts a job of a task.
    pub fn wake(&mut self, task: u64) -> Result<(), Refusal>
        ensures did { stepped (answered result) (state_of self.new.core) ≡ do_wake (tasks_of self.old.core) (state_of self.old.core) task }
        ensures tasks { tasks_of self.new.core ≡ tasks_of self.old.core }
        ensures load { self.new.load ≡ self.old.load }
    {
        self.core.wake(task)
    }

    /// Finishes the piece at the front, if it is this task's.
    pub fn end(&mut self, task: u64) -> Result<(), Refusal>
        ensures did { stepped (answered result) (state_of self.new.core) ≡ do_end (tasks_of self.old.core) (state_of self.old.core) task }
        ensures tasks { tasks_of self.new.core ≡ tasks_of self.old.core }
        ensures load { self.new.load ≡ self.old.load }
    {
        self.core.end(task)
    }

    /// Runs the piece at the front for one tick, or stops the machine if a piece is late.
    // Inlined always: ticks are many, and a caller that drops the answer need not pay for building it.
    #[inline(always)]
    pub fn tick(&mut self) -> Result<Ticked, Refusal>
        ensures did { stepped (ticked result) (state_of self.new.core) ≡ do_tick (tasks_of self.old.core) (state_of self.old.core) }
        ensures earliest { TickSays (state_of self.old.core) (ticked result) }
        ensures tasks { tasks_of self.new.core ≡ tasks_of self.old.core }
        ensures load { self.new.load ≡ self.old.load }
    {
        self.core.tick()
    }
}
