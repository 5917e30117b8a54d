//! A pen on the glass: a clock, and strokes that are sampled, drawn and stored.
ghost use Rattle.std.specs.Prelude.{◌≡◌, ◌≤◌, List, ◌∷◌, MatchOption};
ghost use Rattle.model.specs.Asked.{nth_piece};
ghost use Rattle.model.specs.Demand.{caps_by, from_wake, from_piece, demand};
ghost use Rattle.model.specs.Rows.{From, plain_asks};
ghost use Rattle.model.specs.Task.{Piece};
ghost use Rattle.outside.specs.Pen.{clock_task, stroke_task, pieces_from};

use model::length::Length;

/// What a clock tick costs, and what each of the three pieces of a stroke costs.
#[derive(Clone, Copy)]
pub struct Pen {
    clock: u64,
    stroke: u64,
    ghost ok: { From 1 clock 20 × From 1 stroke 5 },
}

impl Pen {
    /// A pen, unless a cost is out of range.
    // `new` and not `TryFrom`: two numbers are no other form of a pen.
    pub fn new(clock: u64, stroke: u64) -> Option<Pen>
        ensures { MatchOption result (From 1 clock 20 × From 1 stroke 5 → ⊥) (λ p. (p.clock ≡ clock) × (p.stroke ≡ stroke)) }
    {
        // Tested by their two ends, as the rule is written.
        if clock < 1 || clock > 20 || stroke < 1 || stroke > 5 {
            return None;
        }
        Some(Pen { clock, stroke })
    }

    pub(crate) fn clock(&self) -> u64
        ensures { result ≡ self.now.clock }
    {
        self.clock
    }

    pub(crate) fn stroke(&self) -> u64
        ensures { result ≡ self.now.stroke }
    {
        self.stroke
    }

    pub(crate) fn clock_piece(&self, number: u64) -> Option<(u64, u64, u64)>
        ensures { result ≡ nth_piece (clock_task self.now.clock).pieces number }
    {
        match number {
            1 => Some((0, self.clock, 20)),
            _ => None,
        }
    }

    pub(crate) fn stroke_piece(&self, number: u64) -> Option<(u64, u64, u64)>
        ensures { result ≡ nth_piece (stroke_task self.now.stroke).pieces number }
    {
        match number {
            1 => Some((0, self.stroke, 10)),
            2 => Some((20, self.stroke, 30)),
            3 => Some((40, self.stroke, 60)),
            _ => None,
        }
    }

    pub(crate) fn clock_demand(&self, length: Length) -> u64
        ensures { result ≡ plain_asks 20 20 self.now.clock length.value }
    {
        match length.checked_sub(20) {
            Some(rest) => self.clock * (rest.value() / 20 + 1),
            None => 0,
        }
    }

    // Each of these promises the most that it answers, so that the sums above it fit: bounds of results, which no parameter's type holds.

    /// The caps due by the offset e, of the pieces from number `first` on, counted from 0.
    fn caps_by(&self, first: u64, e: u64) -> u64
        ensures value { result ≡ caps_by e (pieces_from first self.now.stroke) }
        ensures top { result ≤ 15 }
    {
        let due: u64 = match e {
            0..=9 => 0,
            10..=29 => 1,
            30..=59 => 2,
            _ => 3,
        };
        due.saturating_sub(first) * self.stroke
    }

    /// Windows that begin at a wake.
    fn from_wake(&self, length: Length) -> u64
        ensures value { result ≡ from_wake (stroke_task self.now.stroke) length.value }
        ensures top { result ≤ 15000915 }
    {
        let length = length.value();
        let total = 3 * self.stroke;
        length / 60 * total + total.min(self.caps_by(0, length % 60))
    }

    /// Windows that begin where the piece of number `first` is ready. The pieces are ready 20 apart.
    fn from_later(&self, first: u64, length: Length) -> u64
        requires { first ≤ 2 }
        ensures value { (p : Piece) (ps : List Piece) → pieces_from first self.now.stroke ≡ p ∷ ps → result ≡ from_piece (stroke_task self.now.stroke) p ps length.value }
        ensures top { result ≤ 15000930 }
    {
        let total = 3 * self.stroke;
        let ready = 20 * first;
        match length.checked_sub(60 - ready) {
            Some(rest) => total.min(self.caps_by(first, 60)) + self.from_wake(rest),
            None => total.min(self.caps_by(first, ready + length.value())),
        }
    }

    /// Windows that begin anywhere.
    pub(crate) fn stroke_demand(&self, length: Length) -> u64
        ensures value { result ≡ demand (stroke_task self.now.stroke) length.value }
        ensures top { result ≤ 15000930 }
    {
        let later = self.from_later(1, length).max(self.from_later(2, length));
        self.from_wake(length).max(later)
    }
}
