//! The trait of evidence that can be written.

ghost use Rattle.std.specs.Prelude.{◌≡◌, ℕ, ◌≤◌};
ghost use Rattle.evidence.specs.Changes.{Grown, Set};

use super::evidence::Evidence;
use super::refusal::Refusal;

/// Evidence that can be written. What its calls do is told of its meaning as evidence, for all numbers.
pub trait Ledger: Evidence {
    // How many sharing pairs it has room for. No call changes this.
    ghost most: { Self → ℕ };

    /// How many sharing pairs there is room for, from 1 to 2,016.
    fn most(&self) -> u16
        ensures { result ≡ most self.now };

    /// Takes all baselines away.
    fn clear(&mut self)
        ensures table { (Self.Evidence.meaning self.new).count ≡ 0 }
        ensures most { most self.new ≡ most self.old };

    /// Adds a baseline that shares with none, and answers its number; refused with 11 at 64 baselines.
    fn grow(&mut self) -> Result<usize, Refusal>
        ensures table { Grown (Self.Evidence.meaning self.old) (Self.Evidence.meaning self.new) result }
        ensures most { most self.new ≡ most self.old };

    /// Gives one pair the wanted state, and answers whether that changed it. Refused with 12 where a number is not
    /// below the count, else with 13 where the two are equal, else with 14 where there is no room for a new sharing pair.
    fn set(&mut self, i: usize, j: usize, on: bool) -> Result<bool, Refusal>
        ensures table { Set (Self.Evidence.meaning self.old) (Self.Evidence.meaning self.new) (most self.old) i j on result }
        ensures most { most self.new ≡ most self.old };

    // Room for one pair at least, and at most for all that 64 baselines make.
    ghost bounds: { (x : Self) → (1 ≤ most x) × (most x ≤ 2016) };
}
