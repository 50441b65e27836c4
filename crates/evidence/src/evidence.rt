//! The trait of everything that tells which baselines share.

ghost use Rattle.std.specs.Prelude.{◌≡◌, ℕ};
ghost use Rattle.evidence.specs.Table.{Table, Sound};

/// Evidence means a table of sharing: a count from 0 to 64, and which two of the baselines below it share.
/// Putting a question changes nothing.
pub trait Evidence {
    // What a value means.
    ghost meaning: { Self → Table };

    /// How many baselines there are.
    fn count(&self) -> usize
        ensures { result ≡ (meaning self.now).count };

    /// Whether two baselines share; no for equal numbers and for numbers not below the count.
    fn shares(&self, i: usize, j: usize) -> bool
        ensures { result ≡ (meaning self.now).shares i j };

    // Its kind shows that this is sound: at most 64, alike in both orders, no for equal numbers and from the count on.
    ghost sound: { (x : Self) → Sound (meaning x) };
}
