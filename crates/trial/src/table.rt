//! Tables of sharing, written into a ledger.

use evidence::{Ledger, Refusal};

/// Makes a ledger of so many baselines, of which two share where the closure says so of the higher number and the lower.
pub fn fill<L: Ledger, F: Fn(usize, usize) -> bool>(
    ledger: &mut L,
    count: usize,
    shares: F,
) -> Result<(), Refusal>
    requires { F.IsAlwaysCallable shares }
{
    ledger.clear();
    for i in 0..count {
        ledger.grow()?;
        for j in 0..i {
            ledger.set(i, j, shares(i, j))?;
        }
    }
    Ok(())
}
