//! What the costs of a slowed load are multiplied by.
ghost use Rattle.std.specs.Prelude.{◌≡◌, ◌*◌, ◌≤◌, Some, None, MatchResult};
ghost use Rattle.model.specs.Asked.{told};
ghost use Rattle.model.specs.Rules.{factor_fault};

use model::refusal::Refusal;

/// A factor from 2 to 8.
#[derive(Clone, Copy)]
pub struct Factor {
    value: u64,
    ghost ok: { (2 ≤ value) × (value ≤ 8) },
}

impl Factor {
    /// A factor, unless it is out of range.
    // `new` and not `TryFrom`: a number is no other form of a factor.
    pub fn new(value: u64) -> Result<Factor, Refusal>
        ensures { MatchResult result (λ f. (factor_fault value ≡ None) × (f.value ≡ value)) (λ e. factor_fault value ≡ Some e) }
    {
        // Tested by its two ends, as the rule is written.
        if value < 2 || value > 8 {
            return Err(Refusal::Factor);
        }
        Ok(Factor { value })
    }

    /// A told cost times the factor, told again.
    pub fn times(&self, cost: u64) -> u64
        ensures { result ≡ told (self.now.value * cost) }
    {
        (self.value * cost.min(1_000_000_000_000_000)).min(1_000_000_000_000_000)
    }
}
