//! How many baselines a ledger has.

ghost use Rattle.std.specs.Prelude.{◌≡◌, ℕ, ◌+◌, ◌<◌, ◌≤◌, IfOk, IfErr};
ghost use Rattle.evidence.specs.declared.refusal.Refusal.TheVariants.{Full};

use evidence::Refusal;

/// A count of baselines.
#[derive(Clone, Copy)]
pub struct Count {
    pub count: usize,
}

impl Count {
    /// Counts one more, and answers its number; refused with 11 at 64 baselines.
    pub fn grow(&mut self) -> Result<usize, Refusal>
        ensures ok { IfOk result (λ n. (n < 64) × (n ≡ self.old.count) × (self.new.count ≡ n + 1)) }
        ensures full { IfErr result (λ e. (e ≡ Full) × (64 ≤ self.old.count) × (self.new.count ≡ self.old.count)) }
    {
        let n = self.count;
        if n >= 64 {
            return Err(Refusal::Full);
        }
        self.count = n + 1;
        Ok(n)
    }
}
