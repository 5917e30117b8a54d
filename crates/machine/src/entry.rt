//! One task's entry in the table, and the events that move it.
ghost use Rattle.std.specs.Prelude.{◌≡◌, ◌+◌, ◌<◌, ◌≤◌};
ghost use Rattle.model.specs.Machine.{since, too_soon};
ghost use Rattle.machine.specs.Events.{GoodEntry, moved, limit_at, followed};
ghost use Rattle.machine.specs.Views.{Resting, piece_in, piece_told, task_of, works};

use crate::numbers::Numbers;

/// At rest, or at a piece, counted from 0: ready, with the ticks that it ran, or held until its ready instant.
#[derive(Clone, Copy, PartialEq, Eq)]
pub enum Phase {
    Rest,
    Ready { piece: usize, ran: u64 },
    Held { piece: usize },
}

/// What moves an entry, and the instant at which it does. A release comes with the ready instant of a held piece.
#[derive(Clone, Copy)]
pub enum Event {
    Wake { at: u64 },
    End { at: u64 },
    Tick { at: u64 },
    Release,
}

/// A task, its last wake, the ticks that its job ran in finished pieces, and its phase.
#[derive(Clone, Copy)]
pub struct Entry {
    pub task: Numbers,
    pub last: Option<u64>,
    pub before: u64,
    pub phase: Phase,
}

impl Phase {
    /// Whether a job is open.
    pub(crate) fn works(self) -> bool
        ensures { result ≡ works self }
    {
        self != Phase::Rest
    }

    /// The piece at work, counted from 1.
    pub(crate) fn at_work(self) -> u64
        requires { piece_in self < 4 }
        ensures { result ≡ piece_told self }
    {
        match self {
            Phase::Rest => 1,
            Phase::Ready { piece, .. } | Phase::Held { piece } => piece as u64 + 1,
        }
    }
}

impl Entry {
    /// A task at rest.
    pub(crate) fn at_rest(task: Numbers) -> Entry
        ensures rest { Resting result }
        ensures task { result.task ≡ task }
    {
        Entry {
            task,
            last: None,
            before: 0,
            phase: Phase::Rest,
        }
    }

    /// The instant that lies `offset` after the last wake.
    pub(crate) fn instant(self, offset: u64) -> u64
        requires { since self.last offset < 18446744073709551616 }
        ensures { result ≡ since self.last offset }
    {
        match self.last {
            Some(wake) => wake + offset,
            None => offset,
        }
    }

    /// Whether the spacing since the last wake is not over.
    pub(crate) fn soon(self, at: u64) -> bool
        requires { GoodEntry self }
        ensures { result ≡ too_soon (task_of self) at self.last }
    {
        match self.last {
            Some(wake) => at < wake + self.task.spacing,
            None => false,
        }
    }

    /// The ticks that a piece may run.
    fn limit(self, piece: usize) -> u64
        requires { piece < 4 }
        ensures { result ≡ limit_at self.task self.before piece }
    {
        let left = self.task.total.saturating_sub(self.before);
        self.task.pieces[piece].cap.min(left)
    }

    /// How the job goes on with a piece: none is left, it is ready, or it is held.
    fn follow(self, piece: usize, at: u64) -> Phase
        requires last { since self.last 0 ≤ 1000000000000000 }
        requires piece { piece ≤ self.task.count }
        ensures { result ≡ followed self.task self.last piece at }
    {
        if piece == self.task.count {
            return Phase::Rest;
        }
        if self.instant(self.task.pieces[piece].ready) <= at {
            Phase::Ready { piece, ran: 0 }
        } else {
            Phase::Held { piece }
        }
    }

    /// What an event makes of the entry.
    pub(crate) fn next(self, event: Event) -> Entry
        requires { GoodEntry self }
        ensures { result ≡ moved self event }
    {
        match (self.phase, event) {
            (Phase::Rest, Event::Wake { at }) => Entry {
                last: Some(at),
                before: 0,
                phase: Phase::Ready { piece: 0, ran: 0 },
                ..self
            },
            (Phase::Ready { piece, ran }, Event::End { at }) => Entry {
                before: self.before + ran,
                phase: self.follow(piece + 1, at),
                ..self
            },
            (Phase::Ready { piece, ran }, Event::Tick { at }) => {
                let more = ran + 1;
                if self.limit(piece) <= more {
                    Entry {
                        before: self.before + more,
                        phase: self.follow(piece + 1, at),
                        ..self
                    }
                } else {
                    Entry {
                        phase: Phase::Ready { piece, ran: more },
                        ..self
                    }
                }
            }
            (Phase::Held { piece }, Event::Release) => Entry {
                phase: Phase::Ready { piece, ran: 0 },
                ..self
            },
            _ => self,
        }
    }
}
