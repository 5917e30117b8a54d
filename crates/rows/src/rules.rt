//! Tests of the rules that more than one kind of row has.
ghost use Rattle.std.specs.Prelude.{◌≡◌, ◌<◌, Some, None, MatchResult};
ghost use Rattle.model.specs.declared.refusal.Refusal.TheVariants.{Spacing, ZeroPart};
ghost use Rattle.model.specs.Rules.{unless, within, no_zero, split_fault};

use model::refusal::Refusal;

// Ranges are tested as the rules are written, by their two ends.

/// Refuses a spacing that is not 1 to 10,000.
pub(crate) fn test_spacing(spacing: u64) -> Result<(), Refusal>
    ensures { MatchResult result (λ _. unless Spacing (within 1 spacing 10000) None ≡ None) (λ e. unless Spacing (within 1 spacing 10000) None ≡ Some e) }
{
    if spacing < 1 || spacing > 10_000 {
        return Err(Refusal::Spacing);
    }
    Ok(())
}

/// Refuses a cost, a cap or a wait of 0.
pub(crate) fn test_parts(first: u64, wait: u64, second: u64) -> Result<(), Refusal>
    ensures { MatchResult result (λ _. unless ZeroPart (no_zero first wait second) None ≡ None) (λ e. unless ZeroPart (no_zero first wait second) None ≡ Some e) }
{
    if first < 1 || wait < 1 || second < 1 {
        return Err(Refusal::ZeroPart);
    }
    Ok(())
}

/// Refuses a split that is not 1 to the spacing less the wait less 1.
pub(crate) fn test_split(spacing: u64, wait: u64, split: u64) -> Result<(), Refusal>
    requires { wait < spacing }
    ensures { MatchResult result (λ _. split_fault spacing wait split ≡ None) (λ e. split_fault spacing wait split ≡ Some e) }
{
    if split < 1 || split > spacing - wait - 1 {
        return Err(Refusal::Split);
    }
    Ok(())
}
