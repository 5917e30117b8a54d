//! A piece of a task as its load tells it.

/// Offsets count from the wake.
#[derive(Clone, Copy, Default)]
pub struct Piece {
    pub ready: u64,
    pub cap: u64,
    pub due: u64,
}
