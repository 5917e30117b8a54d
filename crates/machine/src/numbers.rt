//! The numbers of a task, copied out of a load.
ghost use Rattle.std.specs.Prelude.{◌≡◌, ℕ, ◌<◌, ◌≤◌, length, slice_index_or};
ghost use Rattle.machine.specs.Pieces.{no_piece};

use crate::piece::Piece;

/// A task, with its pieces in the first `count` places.
// An array with a length beside it: memory is fixed, and an entry is copied.
#[derive(Clone, Copy)]
pub struct Numbers {
    pub spacing: u64,
    pub total: u64,
    pub count: usize,
    pub pieces: [Piece; 4],
    ghost long: { length pieces ≡ 4 },
    ghost slow: { spacing ≤ 10000 },
    ghost some: { 1 ≤ count },
    ghost few: { count ≤ 4 },
    ghost starts: { (slice_index_or pieces 0 no_piece).ready ≡ 0 },
    ghost rises: { (k : ℕ) → k < count → (slice_index_or pieces k no_piece).ready < (slice_index_or pieces k no_piece).due },
    ghost near: { (k : ℕ) → k < count → (slice_index_or pieces k no_piece).due ≤ 10000 },
    ghost caps: { (k : ℕ) → k < count → (slice_index_or pieces k no_piece).cap ≤ 1000000000000000 },
}

/// A lawful task, for the places that no task of a load takes.
impl Default for Numbers {
    fn default() -> Numbers {
        Numbers {
            spacing: 1,
            total: 1,
            count: 1,
            pieces: [Piece {
                ready: 0,
                cap: 1,
                due: 1,
            }; 4],
        }
    }
}
