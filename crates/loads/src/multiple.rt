//! The least common multiple of two spacings or rounds.
ghost use Rattle.std.specs.Prelude.{◌≡◌};
ghost use Rattle.model.specs.Round.{gcd, lcm, round_told};

/// Euclid's algorithm.
fn greatest_divisor(a: u64, b: u64) -> u64
    ensures { result ≡ gcd a b }
{
    let mut x = a;
    let mut y = b;
    while y != 0 {
        let rest = x % y;
        x = y;
        y = rest;
    }
    x
}

/// The least common multiple, or none where it is above 100,000.
pub fn common_multiple(a: u64, b: u64) -> Option<u64>
    ensures { result ≡ round_told (lcm a b) }
{
    if a == 0 || b == 0 {
        return Some(0);
    }
    let least = (a / greatest_divisor(a, b)).checked_mul(b)?;
    // An `if`: so the compiler knows the bound wherever a round is used.
    if least <= 100_000 { Some(least) } else { None }
}
