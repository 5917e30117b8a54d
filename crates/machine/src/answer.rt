//! What a tick answers.

/// An unfinished piece whose due instant had come at `instant`. Tasks are numbered from 0, pieces from 1.
#[derive(Clone, Copy, Debug, PartialEq, Eq)]
pub struct Miss {
    pub task: u64,
    pub piece: u64,
    pub instant: u64,
}

/// What a tick did: a piece ran, none was ready, or the machine stopped.
#[derive(Clone, Copy, Debug, PartialEq, Eq)]
pub enum Ticked {
    Ran { task: u64, piece: u64 },
    Idle,
    Missed(Miss),
}
