//! What every kind of row has, what rows that mean a task tell, and how bare rows become made ones.
ghost use Rattle.std.specs.Prelude.{◌≡◌, ℕ, ◌<◌, Some, None, Option, MatchOption, MatchResult};
ghost use Rattle.model.specs.declared.refusal.Refusal.{Refusal};
ghost use Rattle.model.specs.Asked.{told, nth_piece, demand_told};
ghost use Rattle.model.specs.Run.{Greatest};
ghost use Rattle.model.specs.Task.{Task, Lawful};

use model::refusal::Refusal;

/// A kind of row, by its bare rows: the frame that it is written as, and the rules of its numbers.
pub trait Kind {
    /// The first byte of a frame of this kind.
    const TAG: u8;

    ghost TAG: { ℕ };

    /// The number of two-byte fields that follow the name.
    const FIELDS: usize;

    ghost FIELDS: { ℕ };

    /// The first rule that the row breaks.
    ghost fault: { Self → Option Refusal };

    ghost title: { Self → ℕ };

    /// The row's name.
    fn name(&self) -> u8
        ensures { result ≡ title self.now };

    /// Refuses by the first rule that the row breaks.
    fn test(&self) -> Result<(), Refusal>
        ensures { MatchResult result (λ _. fault self.now ≡ None) (λ e. fault self.now ≡ Some e) };
}

/// A made row that means one task.
pub trait Row {
    ghost task: { Self → Task };

    ghost lawful: { (r : Self) → Lawful (task r) };

    ghost title: { Self → ℕ };

    fn name(&self) -> u8
        ensures { result ≡ title self.now };

    fn spacing(&self) -> u64
        ensures { result ≡ (task self.now).spacing };

    fn total(&self) -> u64
        ensures { result ≡ told (task self.now).total };

    /// A piece, counted from 1: its ready offset, its cap and its due offset.
    fn piece(&self, number: u64) -> Option<(u64, u64, u64)>
        ensures { result ≡ nth_piece (task self.now).pieces number };

    /// The demand at a length of at most 1,000,000: the most that lawful runs can put into a window of that length.
    fn demand(&self, length: u64) -> Option<u64>
        ensures value { result ≡ demand_told (Some (task self.now)) length }
        ensures greatest { MatchOption result (1000000 < length) (Greatest (task self.now) length) };
}

/// A bare row whose made row means a task.
pub trait Bare: Kind {
    type Made: Row + Drop;

    /// The task that its numbers spell.
    ghost own: { Self → Task };

    /// The task that it means: its own, or that of the least row of its kind where it breaks a rule.
    ghost task: { Self → Task };

    ghost lawful: { (r : Self) → Lawful (task r) };

    /// The made row, unless a rule is broken.
    fn made(&self) -> Result<Self::Made, Refusal>
        ensures { MatchResult result (λ m. (Self.Kind.fault self.now ≡ None) × (task self.now ≡ own self.now) × (Self.Made.Row.task m ≡ own self.now) × (Self.Made.Row.title m ≡ Self.Kind.title self.now)) (λ e. Self.Kind.fault self.now ≡ Some e) };

    /// The made row, or the least row of the kind, under the same name.
    fn kept(&self) -> Self::Made
        ensures { (Self.Made.Row.task result ≡ task self.now) × (Self.Made.Row.title result ≡ Self.Kind.title self.now) };
}
