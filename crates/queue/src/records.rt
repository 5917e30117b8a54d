//! The records that queues hold, with their orders.
ghost use Rattle.model.proofs.Order.{pairs_total};
ghost use Rattle.model.specs.Order.{pair_before};

use crate::order::Ranked;

// Three types and not one of two numbers: each names its own instants, and a held piece is no ready one.

/// A ready piece: by its due instant, then by its task's number.
#[derive(Clone, Copy, Debug, Default, PartialEq, Eq, PartialOrd, Ord)]
pub struct ReadyPiece {
    pub due: u64,
    pub task: u64,
}

impl Ranked for ReadyPiece {
    ghost earlier = { λ x y. pair_before x.due x.task y.due y.task };

    ghost total = { pairs_total (λ x. x.due) (λ x. x.task) (λ a b. record { due = a; task = b }) (λ x k. x) };

    fn before(&self, other: &ReadyPiece) -> bool {
        self < other
    }
}

/// A held piece: by its ready instant, then by its task's number.
#[derive(Clone, Copy, Debug, Default, PartialEq, Eq, PartialOrd, Ord)]
pub struct HeldPiece {
    pub ready: u64,
    pub task: u64,
}

impl Ranked for HeldPiece {
    ghost earlier = { λ x y. pair_before x.ready x.task y.ready y.task };

    ghost total = { pairs_total (λ x. x.ready) (λ x. x.task) (λ a b. record { ready = a; task = b }) (λ x k. x) };

    fn before(&self, other: &HeldPiece) -> bool {
        self < other
    }
}

/// An open row: by its spacing less its wait, then by its position in the caller's list.
#[derive(Clone, Copy, Debug, Default, PartialEq, Eq, PartialOrd, Ord)]
pub struct OpenRank {
    /// The spacing less the wait: the ticks that a split divides.
    pub divided: u64,
    pub position: u64,
}

impl Ranked for OpenRank {
    ghost earlier = { λ x y. pair_before x.divided x.position y.divided y.position };

    ghost total = { pairs_total (λ x. x.divided) (λ x. x.position) (λ a b. record { divided = a; position = b }) (λ x k. x) };

    fn before(&self, other: &OpenRank) -> bool {
        self < other
    }
}
