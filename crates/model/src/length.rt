//! Lengths of windows for which a demand is told.
ghost use Rattle.std.specs.Prelude.{◌≡◌, ◌-◌, ◌<◌, ◌≤◌, MatchOption};

/// A length of at most 1,000,000.
#[derive(Clone, Copy)]
pub struct Length {
    value: u64,
    ghost short: { value ≤ 1000000 },
}

impl Length {
    /// The length, unless it is above 1,000,000.
    // `new` and not `TryFrom`: a number is no other form of a length.
    pub fn new(value: u64) -> Option<Length>
        ensures { MatchOption result (1000000 < value) (λ l. l.value ≡ value) }
    {
        if value > 1_000_000 {
            None
        } else {
            Some(Length { value })
        }
    }

    /// The length as a number.
    pub fn value(self) -> u64
        ensures { result ≡ self.value }
    {
        self.value
    }

    /// What is left of the length after some ticks, unless it is below them.
    pub fn checked_sub(self, ticks: u64) -> Option<Length>
        ensures { MatchOption result (self.value < ticks) (λ l. (ticks ≤ self.value) × (l.value ≡ self.value - ticks)) }
    {
        Some(Length {
            value: self.value.checked_sub(ticks)?,
        })
    }
}
