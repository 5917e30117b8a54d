//! The order by which a queue gives out its records.
ghost use Rattle.std.specs.Prelude.{◌≡◌, Bool};
ghost use Rattle.model.specs.Order.{Total};

/// Records in a total order.
pub trait Ranked: Sized {
    /// The order's test: `earlier x y` where x is before y.
    ghost earlier: { Self → Self → Bool };

    ghost total: { Total earlier };

    /// Whether this record is before the other.
    // Not provided over `Ord`: that would ask for `Ord` too of whoever implements the trait.
    fn before(&self, other: &Self) -> bool
        ensures { result ≡ earlier self.now other.now };
}
